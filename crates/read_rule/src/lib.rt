// The rule line of document 01, with the types of document 02: reading its formula, and the refusals 5 to 8 and 19 of its field.
#![tactic(auto)]

ghost use Rattle.std.specs.Prelude.{◌≡◌, true, false, ◌&&◌, List, [], ◌∷◌, ℕ, ◌+◌, ◌-◌, ◌^◌, ◌≤◌, ◌<◌, length, drop};
ghost use Rattle.std.proofs.Math.Seq.{slice};
ghost use Rattle.definitions.specs.Lists.{same, any as any_of};
ghost use Rattle.definitions.specs.Sheet.Formula.{Join, Quant, is_bound, totals};
ghost use Rattle.definitions.specs.Sheet.Parsing.{begins, kind_of, is_other, first, inside, longest, span, read_word, read_var, read_vars, read_type, read_typed, read_more, read_parts, read_lit, read_neg, read_imp, read_join, read_quant, read};
ghost use Rattle.read_names.specs.Signatures.{lent_of, all_of, chosen_of, types_in, types_of, NoFurther};
ghost use Rattle.read_rule.specs.Seen.{total_of, join_of, head_of, seen, nought, shut_of, var_facts, vars_facts, typed_facts, more_facts, both_facts, one_more, quant_facts, verdict_of, names, facts, facts_all, Grows, past_type, listed, fault_in, rule_number, lit_facts};

use read_names::Signature;
use refusal::Cause;

// The form of a formula, by its first bytes.
#[derive(Clone, Copy)]
pub enum Kind {
    Not,
    Implies,
    And,
    Or,
    Exists,
    Forall,
    Other,
}

// What is said of a part of a formula: its forms; whether no more than 4 quantifiers nest, those around it included; whether
// its relations are known; whether its variables are bound, and none twice; whether its types are declared.
#[derive(Clone, Copy)]
pub struct Facts {
    pub forms: usize,
    pub fits: bool,
    pub known: bool,
    pub scoped: bool,
    pub typed: bool,
}

// What is said before anything is read.
const NOUGHT: Facts = Facts {
    forms: 0,
    fits: true,
    known: true,
    scoped: true,
    typed: true,
};

// What is found at a place: where it ends and what is said of it, or none where it is not of its form.
pub type Scanned = Option<(usize, Facts)>;

// The variables bound around, outermost first, as spans of the text.
#[derive(Clone, Copy)]
pub struct Scope {
    pub from: [usize; 4],
    pub to: [usize; 4],
    pub n: usize,
}

// A scope with further variables; whether they fit, and whether each was new.
#[derive(Clone, Copy)]
pub struct Grown {
    pub scope: Scope,
    pub fits: bool,
    pub fresh: bool,
}

// Does `s` go on with `p` at `at`.
pub fn starts(s: &[u8], at: usize, p: &[u8]) -> bool
    requires { at ≤ length s.now }
    ensures { result ≡ begins p.now (drop at s.now) }
{
    s[at..].starts_with(p)
}

// Whether no form's word begins at `at`, by one byte alone: after its bracket each word has a small letter.
fn has_no_word(s: &[u8], at: usize) -> bool
    requires { at ≤ length s.now }
    ensures { result ≡ true → kind_of (drop at s.now) ≡ is_other }
{
    if s.len() - at < 2 {
        return true;
    }
    s[at + 1] < 97
}

// The form that begins at `at`. Most often it is a literal, and then one byte tells.
pub fn kind_at(s: &[u8], at: usize) -> Kind
    requires { at ≤ length s.now }
    ensures { head_of result ≡ kind_of (drop at s.now) }
{
    if has_no_word(s, at) {
        return Kind::Other;
    }
    if starts(s, at, b"(not ") {
        return Kind::Not;
    }
    if starts(s, at, b"(implies ") {
        return Kind::Implies;
    }
    if starts(s, at, b"(and ") {
        return Kind::And;
    }
    if starts(s, at, b"(or ") {
        return Kind::Or;
    }
    if starts(s, at, b"(exists (") {
        return Kind::Exists;
    }
    if starts(s, at, b"(forall (") {
        return Kind::Forall;
    }
    Kind::Other
}

fn is_first(c: u8, var: bool) -> bool
    ensures { result ≡ first var c }
{
    if var {
        c.is_ascii_lowercase()
    } else {
        c.is_ascii_uppercase()
    }
}

fn is_inside(c: u8, var: bool) -> bool
    ensures { result ≡ inside var c }
{
    is_first(c, var) || c.is_ascii_digit() || c == b'_'
}

// Where the bytes that may stand inside a word end.
pub fn run(s: &[u8], from: usize, var: bool) -> usize
    requires { from ≤ length s.now }
    ensures { result ≡ from + span var (drop from s.now) }
{
    for i in from..s.len() {
        if !is_inside(s[i], var) {
            return i;
        }
    }
    s.len()
}

// A name, or the letters of a variable.
fn word(s: &[u8], at: usize, var: bool) -> Scanned
    requires { at ≤ length s.now }
    ensures { result ≡ seen nought (length s.now) (read_word var (drop at s.now)) }
{
    if at >= s.len() {
        return None;
    }
    if !is_first(s[at], var) {
        return None;
    }
    let end = run(s, at + 1, var);
    let most = longest_of(var);
    if end - at <= most {
        Some((end, NOUGHT))
    } else {
        None
    }
}

fn longest_of(var: bool) -> usize
    ensures { result ≡ longest var }
{
    if var { 7 } else { 12 }
}

// Is the variable from `a` to `e` bound around.
pub fn is_bound(s: &[u8], a: usize, e: usize, sc: Scope) -> bool
    requires { sc.n ≤ 4 }
    ensures { result ≡ is_bound (names s.now sc) (slice a e s.now) }
{
    for i in 0..sc.n {
        if read_text::same_span(s, a, e, s, sc.from[i], sc.to[i]) {
            return true;
        }
    }
    false
}

// What is said of two parts together.
fn both(f: Facts, g: Facts) -> Facts
    requires { f.forms + g.forms < 2 ^ 64 }
    ensures { result ≡ both_facts f g }
{
    Facts {
        forms: f.forms + g.forms,
        fits: f.fits & g.fits,
        known: f.known & g.known,
        scoped: f.scoped & g.scoped,
        typed: f.typed & g.typed,
    }
}

// A variable.
fn variable(s: &[u8], at: usize) -> Scanned
    requires { at ≤ length s.now }
    ensures { result ≡ seen nought (length s.now) (read_var (drop at s.now)) }
{
    if starts(s, at, b"?") {
        word(s, at + 1, true)
    } else {
        None
    }
}

// A variable of a literal.
pub fn var_at(s: &[u8], at: usize, sc: Scope) -> Scanned
    requires { (at ≤ length s.now) × (sc.n ≤ 4) }
    ensures { result ≡ seen (var_facts (names s.now sc)) (length s.now) (read_var (drop at s.now)) }
{
    let (e, _) = variable(s, at)?;
    let scoped = is_bound(s, at, e, sc);
    Some((
        e,
        Facts {
            forms: 1,
            scoped,
            ..NOUGHT
        },
    ))
}

// At most `left` further variables, each after a space.
pub fn vars(s: &[u8], at: usize, left: usize, sc: Scope) -> Scanned
    requires { (at ≤ length s.now) × (sc.n ≤ 4) }
    ensures { result ≡ seen (vars_facts (names s.now sc)) (length s.now) (read_vars left (drop at s.now)) }
{
    let mut i = at;
    let mut more = left;
    let mut said = NOUGHT;
    // no count: how many follow is known once the last was read
    while starts(s, i, b" ") {
        if more == 0 {
            return None;
        }
        let (next, f) = var_at(s, i + 1, sc)?;
        said = both(said, f);
        i = next;
        more -= 1;
    }
    Some((i, said))
}

// Is the name from `a` to `e` a declared type's.
fn is_type(
    s: &[u8],
    a: usize,
    e: usize,
    from: &[usize; read_names::NAMES],
    to: &[usize; read_names::NAMES],
) -> bool
    ensures { result ≡ any_of (λ t. same t (slice a e s.now)) (types_in s.now from.now to.now 8) }
{
    read_names::type_named(s, from, to, read_names::TYPES, s, a, e).is_some()
}

// What may follow a variable in a quantifier's list: a colon and a type.
fn type_at(
    s: &[u8],
    at: usize,
    from: &[usize; read_names::NAMES],
    to: &[usize; read_names::NAMES],
) -> Scanned
    requires { at ≤ length s.now }
    ensures { (v : List ℕ) → result ≡ seen (typed_facts (types_in s.now from.now to.now 8)) (length s.now) (read_type v (drop at s.now)) }
{
    if starts(s, at, b":") {
        let (e, _) = word(s, at + 1, false)?;
        let typed = is_type(s, at + 1, e, from, to);
        Some((
            e,
            Facts {
                forms: 1,
                typed,
                ..NOUGHT
            },
        ))
    } else {
        Some((at, Facts { forms: 1, ..NOUGHT }))
    }
}

// A variable of a quantifier's list.
fn typed_at(
    s: &[u8],
    at: usize,
    from: &[usize; read_names::NAMES],
    to: &[usize; read_names::NAMES],
) -> Scanned
    requires { at ≤ length s.now }
    ensures { result ≡ seen (typed_facts (types_in s.now from.now to.now 8)) (length s.now) (read_typed (drop at s.now)) }
{
    let (e, _) = variable(s, at)?;
    type_at(s, e, from, to)
}

// At most `left` further ones, each after a space.
fn typed_vars(
    s: &[u8],
    at: usize,
    left: usize,
    from: &[usize; read_names::NAMES],
    to: &[usize; read_names::NAMES],
) -> Scanned
    requires { at ≤ length s.now }
    ensures { result ≡ seen (more_facts (types_in s.now from.now to.now 8)) (length s.now) (read_more left (drop at s.now)) }
{
    let mut i = at;
    let mut more = left;
    let mut said = NOUGHT;
    // no count: how many follow is known once the last was read
    while starts(s, i, b" ") {
        if more == 0 {
            return None;
        }
        let (next, q) = typed_at(s, i + 1, from, to)?;
        said = both(said, q);
        i = next;
        more -= 1;
    }
    Some((i, said))
}

// The closing bracket.
pub fn shut(s: &[u8], at: usize, f: Facts) -> Scanned
    requires { at ≤ length s.now }
    ensures { result ≡ shut_of s.now at f }
{
    if starts(s, at, b")") {
        Some((at + 1, f))
    } else {
        None
    }
}

// ... of a form with one part, and with two.
fn shut_one(s: &[u8], at: usize, f: Facts) -> Scanned
    requires { (at ≤ length s.now) × (f.forms + 1 < 2 ^ 64) }
    ensures { result ≡ shut_of s.now at (one_more f) }
{
    let g = Facts {
        forms: 1 + f.forms,
        ..f
    };
    shut(s, at, g)
}

fn shut_two(s: &[u8], at: usize, f: Facts, g: Facts) -> Scanned
    requires { (at ≤ length s.now) × (f.forms + g.forms + 1 < 2 ^ 64) }
    ensures { result ≡ shut_of s.now at (one_more (both_facts f g)) }
{
    let h = both(f, g);
    shut_one(s, at, h)
}

// The scope with the variable from `a` to `e`.
fn push(s: &[u8], g: Grown, a: usize, e: usize) -> Grown
    requires { g.scope.n ≤ 4 }
    ensures { Grows s.now g (slice a e s.now ∷ []) result }
{
    let old = g.scope;
    let n = old.n;
    if n < 4 {
        let b = is_bound(s, a, e, old);
        let fresh = g.fresh & !b;
        let mut sc = old;
        sc.from[n] = a;
        sc.to[n] = e;
        sc.n = n + 1;
        Grown {
            scope: sc,
            fits: g.fits,
            fresh,
        }
    } else {
        Grown {
            scope: old,
            fits: false,
            fresh: g.fresh,
        }
    }
}

// Where the type after a variable ends; where the variable does if it has none.
pub fn past_type(s: &[u8], at: usize) -> usize
    requires { at ≤ length s.now }
    ensures { result ≡ past_type s.now at }
{
    if starts(s, at, b":") {
        run(s, at + 1, false)
    } else {
        at
    }
}

// The scope with `k` variables, the first at `at`, one byte between them; their types are passed over.
pub fn grow(s: &[u8], at: usize, k: usize, g: Grown) -> Grown
    requires { g.scope.n ≤ 4 }
    ensures { Grows s.now g (listed s.now at k) result }
{
    let mut i = at;
    let mut more = k;
    let mut grown = g;
    // a count, but the names end early where the text does
    while more > 0 {
        if i >= s.len() {
            return grown;
        }
        let e = run(s, i + 1, true);
        grown = push(s, grown, i, e);
        i = past_type(s, e) + 1;
        more -= 1;
    }
    grown
}

// A literal's closing bracket; its name is from `a` to `e`, its variables are said by `f`.
fn shut_literal(
    s: &[u8],
    at: usize,
    a: usize,
    e: usize,
    f: Facts,
    from: &[usize; read_names::NAMES],
    to: &[usize; read_names::NAMES],
    arity: &[usize; 13],
    m: usize,
) -> Scanned
    requires { (at ≤ length s.now) × (m ≤ 13) }
    ensures { result ≡ shut_of s.now at (lit_facts (all_of s.now (lent_of from.now to.now arity.now m)) (slice a e s.now) f) }
{
    let known = read_names::known(s, from, to, arity, m, a, e, f.forms);
    let g = Facts {
        forms: 1,
        known,
        scoped: f.scoped,
        ..NOUGHT
    };
    shut(s, at, g)
}

// A quantifier's; its list is said by `l`.
fn shut_quant(s: &[u8], at: usize, l: Facts, g: Grown, f: Facts) -> Scanned
    requires { (at ≤ length s.now) × (l.forms + f.forms < 2 ^ 64) }
    ensures { result ≡ shut_of s.now at (quant_facts l g.fits g.fresh f) }
{
    let h = Facts {
        forms: l.forms + f.forms,
        fits: g.fits & f.fits,
        known: f.known,
        scoped: g.fits & g.fresh & f.scoped,
        typed: l.typed & f.typed,
    };
    shut(s, at, h)
}

// A relation with its variables.
pub fn literal(
    s: &[u8],
    at: usize,
    from: &[usize; read_names::NAMES],
    to: &[usize; read_names::NAMES],
    arity: &[usize; 13],
    m: usize,
    sc: Scope,
) -> Scanned
    requires { (at ≤ length s.now) × (m ≤ 13) × (sc.n ≤ 4) }
    ensures { result ≡ seen (facts (all_of s.now (lent_of from.now to.now arity.now m)) (types_in s.now from.now to.now 8) (names s.now sc)) (length s.now) (read_lit (drop at s.now)) }
{
    if !starts(s, at, b"(") {
        return None;
    }
    let (a, _) = word(s, at + 1, false)?;
    if !starts(s, a, b" ") {
        return None;
    }
    let (b, f) = var_at(s, a + 1, sc)?;
    let (e, g) = vars(s, b, s.len() - b, sc)?;
    let h = both(f, g);
    shut_literal(s, e, at + 1, a, h, from, to, arity, m)
}

// A formula at `at`, in which at most `room` brackets are open together.
#[cycle(bound_implied_joined_negated_parts_scan)]
pub fn scan(
    s: &[u8],
    at: usize,
    room: usize,
    from: &[usize; read_names::NAMES],
    to: &[usize; read_names::NAMES],
    arity: &[usize; 13],
    m: usize,
    sc: Scope,
) -> Scanned
    requires { (at ≤ length s.now) × (m ≤ 13) × (sc.n ≤ 4) }
    ensures { result ≡ seen (facts (all_of s.now (lent_of from.now to.now arity.now m)) (types_in s.now from.now to.now 8) (names s.now sc)) (length s.now) (read room (drop at s.now)) }
{
    if room == 0 {
        return None;
    }
    let k = kind_at(s, at);
    match k {
        Kind::Not => negated(s, at + 5, room - 1, from, to, arity, m, sc),
        Kind::Implies => implied(s, at + 9, room - 1, from, to, arity, m, sc),
        Kind::And => joined(s, at + 5, room - 1, from, to, arity, m, sc),
        Kind::Or => joined(s, at + 4, room - 1, from, to, arity, m, sc),
        Kind::Exists => bound(s, at + 9, room - 1, from, to, arity, m, sc),
        Kind::Forall => bound(s, at + 9, room - 1, from, to, arity, m, sc),
        Kind::Other => literal(s, at, from, to, arity, m, sc),
    }
}

// What follows `(not `.
#[cycle(bound_implied_joined_negated_parts_scan)]
fn negated(
    s: &[u8],
    at: usize,
    room: usize,
    from: &[usize; read_names::NAMES],
    to: &[usize; read_names::NAMES],
    arity: &[usize; 13],
    m: usize,
    sc: Scope,
) -> Scanned
    requires { (at ≤ length s.now) × (m ≤ 13) × (sc.n ≤ 4) }
    ensures { result ≡ seen (facts (all_of s.now (lent_of from.now to.now arity.now m)) (types_in s.now from.now to.now 8) (names s.now sc))
        (length s.now) (read_neg (read room) (drop at s.now)) }
{
    let (a, n) = scan(s, at, room, from, to, arity, m, sc)?;
    shut_one(s, a, n)
}

// What follows `(implies `.
#[cycle(bound_implied_joined_negated_parts_scan)]
fn implied(
    s: &[u8],
    at: usize,
    room: usize,
    from: &[usize; read_names::NAMES],
    to: &[usize; read_names::NAMES],
    arity: &[usize; 13],
    m: usize,
    sc: Scope,
) -> Scanned
    requires { (at ≤ length s.now) × (m ≤ 13) × (sc.n ≤ 4) }
    ensures { result ≡ seen (facts (all_of s.now (lent_of from.now to.now arity.now m)) (types_in s.now from.now to.now 8) (names s.now sc))
        (length s.now) (read_imp (read room) (drop at s.now)) }
{
    let (a, n) = scan(s, at, room, from, to, arity, m, sc)?;
    if !starts(s, a, b" ") {
        return None;
    }
    let (b, w) = scan(s, a + 1, room, from, to, arity, m, sc)?;
    shut_two(s, b, n, w)
}

// What follows `(and ` or `(or `.
#[cycle(bound_implied_joined_negated_parts_scan)]
fn joined(
    s: &[u8],
    at: usize,
    room: usize,
    from: &[usize; read_names::NAMES],
    to: &[usize; read_names::NAMES],
    arity: &[usize; 13],
    m: usize,
    sc: Scope,
) -> Scanned
    requires { (at ≤ length s.now) × (m ≤ 13) × (sc.n ≤ 4) }
    ensures { (j : Join) → result ≡ seen (facts (all_of s.now (lent_of from.now to.now arity.now m)) (types_in s.now from.now to.now 8) (names s.now sc))
        (length s.now) (read_join (read room) j (drop at s.now)) }
{
    let (a, n) = scan(s, at, room, from, to, arity, m, sc)?;
    let (b, w) = parts(s, a, room, s.len() - a, from, to, arity, m, sc)?;
    shut_two(s, b, n, w)
}

// At most `left` further parts, each after a space.
#[cycle(bound_implied_joined_negated_parts_scan)]
fn parts(
    s: &[u8],
    at: usize,
    room: usize,
    left: usize,
    from: &[usize; read_names::NAMES],
    to: &[usize; read_names::NAMES],
    arity: &[usize; 13],
    m: usize,
    sc: Scope,
) -> Scanned
    requires { (at ≤ length s.now) × (m ≤ 13) × (sc.n ≤ 4) }
    ensures { result ≡ seen (facts_all (all_of s.now (lent_of from.now to.now arity.now m)) (types_in s.now from.now to.now 8) (names s.now sc))
        (length s.now) (read_parts (read room) left (drop at s.now)) }
{
    let mut i = at;
    let mut more = left;
    let mut said = NOUGHT;
    // no count: how many follow is known once the last was read
    while starts(s, i, b" ") {
        if more == 0 {
            return None;
        }
        let (next, g) = scan(s, i + 1, room, from, to, arity, m, sc)?;
        said = both(said, g);
        i = next;
        more -= 1;
    }
    Some((i, said))
}

// What follows `(exists (` or `(forall (`.
#[cycle(bound_implied_joined_negated_parts_scan)]
fn bound(
    s: &[u8],
    at: usize,
    room: usize,
    from: &[usize; read_names::NAMES],
    to: &[usize; read_names::NAMES],
    arity: &[usize; 13],
    m: usize,
    sc: Scope,
) -> Scanned
    requires { (at ≤ length s.now) × (m ≤ 13) × (sc.n ≤ 4) }
    ensures { (q : Quant) → result ≡ seen (facts (all_of s.now (lent_of from.now to.now arity.now m)) (types_in s.now from.now to.now 8) (names s.now sc))
        (length s.now) (read_quant (read room) q (drop at s.now)) }
{
    let (a, one) = typed_at(s, at, from, to)?;
    let (b, others) = typed_vars(s, a, 3, from, to)?;
    if !starts(s, b, b") ") {
        return None;
    }
    let list = both(one, others);
    let none = Grown {
        scope: sc,
        fits: true,
        fresh: true,
    };
    let g = grow(s, at, list.forms, none);
    let (e, n) = scan(s, b + 2, room, from, to, arity, m, g.scope)?;
    shut_quant(s, e, list, g, n)
}

// How many totalities are added.
pub fn totalities(sig: Signature) -> usize
    requires { sig.rels + sig.chosen ≤ 12 }
    ensures { ((q : List ℕ) → result ≡ totals (chosen_of q sig)) × (result ≤ 12) }
{
    let end = sig.rels + sig.chosen;
    let mut t = 0;
    for i in sig.rels..end {
        let k = sig.kind[i];
        let one = total(k);
        t += one;
    }
    t
}

// Does a kind add a totality: `Fun` is 2, `Inj` is 4.
pub fn total(k: u32) -> usize
    ensures { result ≡ total_of k }
{
    if k == 2 {
        return 1;
    }
    if k == 4 {
        return 1;
    }
    0
}

// The joining `and`.
fn joining(t: usize) -> usize
    ensures { result ≡ join_of t }
{
    if t == 0 { 0 } else { 1 }
}

// The tests in the order of the refusals' numbers.
fn judge(f: Facts, t: usize) -> Result<(), Cause>
    requires { (f.forms < 2 ^ 63) × (t ≤ 12) }
    ensures { fault_in result ≡ verdict_of f t }
{
    let join = joining(t);
    if f.forms + 3 * t + join > 64 {
        return Err(Cause::TooManyForms);
    }
    if !f.fits {
        return Err(Cause::TooManyForms);
    }
    if !f.known {
        return Err(Cause::Unknown);
    }
    if !f.scoped {
        return Err(Cause::BadVariable);
    }
    if !f.typed {
        return Err(Cause::BadType);
    }
    Ok(())
}

// Why the rule field from `at` to `end` is refused, if it is.
pub fn rule_verdict(text: &[u8], at: usize, end: usize, sig: Signature) -> Result<(), Cause>
    requires { (at ≤ end) × (end ≤ length text.now) × (sig.rels + sig.chosen ≤ 12) × (sig.every ≤ 1) × (sig.types ≤ 8) × NoFurther sig.to sig.types }
    ensures { fault_in result ≡ rule_number (all_of text.now sig) (types_of text.now sig) (chosen_of text.now sig) (slice at end text.now) }
{
    let sc = Scope {
        from: [0; 4],
        to: [0; 4],
        n: 0,
    };
    let m = sig.rels + sig.chosen + sig.every;
    let Some((next, g)) = scan(text, at, 128, &sig.from, &sig.to, &sig.arity, m, sc) else {
        return Err(Cause::NoFormula);
    };
    if next != end {
        return Err(Cause::NoFormula);
    }
    judge(g, totalities(sig))
}
