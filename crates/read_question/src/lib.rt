// The question's reader: its relations and types as a signature and the place of its rule's formula, or why it is refused (1 to 8, 19).
#![tactic(auto)]

ghost use Rattle.std.specs.Prelude.{◌≡◌, ◌+◌, ◌-◌, ◌≤◌, ◌<◌, length, take, drop};
ghost use Rattle.std.proofs.Math.Seq.{slice};
ghost use Rattle.definitions.specs.Sheet.Sheets.{read_question};
ghost use Rattle.definitions.specs.Reply.Outcome.{rule_part};
ghost use Rattle.definitions.specs.Sheet.Formula.{sort_named};
ghost use Rattle.read_line.specs.Entries.{InText, types_at};
ghost use Rattle.read_names.specs.Signatures.{types_in, types_of, SoundSignature, Lent};
ghost use Rattle.read_rule.specs.Seen.{fault_in};
ghost use Rattle.read_question.specs.Drafts.{is_late, is_closed, name_fault, type_fault, choose_fault, every_fault, judge_of, Room, sorts_in, pushed, typed, grown_by, Headed, later_of, no_signature, QuestionRead};

use read_line::Entry;
use read_names::Signature;
use refusal::{Cause, Refusal};

#[derive(Clone, Copy)]
pub struct Span {
    pub from: usize,
    pub to: usize,
}

// The sorts of a relation's first and second place, and those of one that is given no types.
#[derive(Clone, Copy)]
struct Sorts {
    firsts: u8,
    seconds: u8,
}

const UNSORTED: Sorts = Sorts {
    firsts: 0,
    seconds: 0,
};

// What the lines up to the rule's give: the signature, the place of the rule's line, the span of its formula and the place after its line.
#[derive(Clone, Copy)]
struct Head {
    place: usize,
    sig: Signature,
    span: Span,
    next: usize,
}

// A question: its relations and types, and its rule's span.
#[derive(Clone, Copy)]
pub struct Asked {
    pub sig: Signature,
    pub rule: Span,
}

// A line comes too late: lines of a later kind stand before it, or 8 of its own. A type does not come after types, so it hands in 0.
fn late(types: usize, chosen: usize, own: usize) -> bool
    ensures { result ≡ is_late types chosen own }
{
    types != 0 || chosen != 0 || 8 <= own
}

// What a relation gets in its place: a bad name unless the span is a name that is neither built in nor declared, in a signature whose
// names and count are lent.
fn name_fault(
    s: &[u8],
    from: &[usize; read_names::NAMES],
    to: &[usize; read_names::NAMES],
    m: usize,
    a: usize,
    e: usize,
) -> Result<(), Cause>
    requires { (m ≤ 13) × (a ≤ e) × (e ≤ length s.now) }
    ensures { (g : Signature) → Lent g from.now to.now m → result ≡ name_fault s.now g (slice a e s.now) }
{
    if !read_text::is_relation_name(s, a, e) {
        return Err(Cause::BadName);
    }
    if read_names::is_declared(s, from, to, m, a, e) {
        return Err(Cause::BadName);
    }
    Ok(())
}

// The same in a signature.
fn new_name(s: &[u8], g: Signature, a: usize, e: usize) -> Result<(), Cause>
    requires { SoundSignature s.now g × (a ≤ e) × (e ≤ length s.now) }
    ensures { result ≡ name_fault s.now g (slice a e s.now) }
{
    name_fault(s, &g.from, &g.to, g.rels + g.chosen + g.every, a, e)
}

// What a type gets in its place: a bad name unless the span has a name's form, a bad type if it is one of the first k types of a
// signature whose names are lent.
fn type_fault(
    s: &[u8],
    from: &[usize; read_names::NAMES],
    to: &[usize; read_names::NAMES],
    k: usize,
    a: usize,
    e: usize,
) -> Result<(), Cause>
    requires { (k ≤ 8) × (a ≤ e) × (e ≤ length s.now) }
    ensures { result ≡ type_fault (types_in s.now from.now to.now k) (slice a e s.now) }
{
    if !read_text::is_relation_name(s, a, e) {
        return Err(Cause::BadName);
    }
    match read_names::type_named(s, from, to, k, s, a, e) {
        Some(_) => Err(Cause::BadType),
        None => Ok(()),
    }
}

// The sort of the type that the span names among the first k of a signature whose names are lent, 0 where it names none.
fn sort_named(
    s: &[u8],
    from: &[usize; read_names::NAMES],
    to: &[usize; read_names::NAMES],
    k: usize,
    a: usize,
    e: usize,
) -> u8
    requires { k ≤ 8 }
    ensures { result ≡ sort_named (types_in s.now from.now to.now k) (slice a e s.now) }
{
    let f = read_names::type_named(s, from, to, k, s, a, e);
    match f {
        Some(i) => (i + 1) as u8,
        None => 0,
    }
}

// The sorts of a chosen relation's places, by the types that it gives.
fn sorts_of(s: &[u8], g: Signature, t: usize, u: usize, v: usize) -> Sorts
    requires { (g.types ≤ 8) × (0 < v → u < v) }
    ensures { result ≡ sorts_in (types_of s.now g) (types_at s.now t u v) }
{
    if v == 0 {
        return UNSORTED;
    }
    Sorts {
        firsts: sort_named(s, &g.from, &g.to, g.types, t, u),
        seconds: sort_named(s, &g.from, &g.to, g.types, u + 1, v),
    }
}

// What a chosen relation gets in its place: by its name, then a bad type if one that it gives is not declared.
fn choose_fault(
    s: &[u8],
    g: Signature,
    a: usize,
    e: usize,
    t: usize,
    u: usize,
    v: usize,
) -> Result<(), Cause>
    requires { SoundSignature s.now g × (a ≤ e) × (e ≤ length s.now) × (0 < v → u < v) }
    ensures { result ≡ choose_fault s.now g (slice a e s.now) (types_at s.now t u v) }
{
    new_name(s, g, a, e)?;
    if v == 0 {
        return Ok(());
    }
    let p = sorts_of(s, g, t, u, v);
    if p.firsts == 0 || p.seconds == 0 {
        return Err(Cause::BadType);
    }
    Ok(())
}

// No `choose` line may follow: the `every` line was read, or four of its kind.
fn closed(every: usize, chosen: usize) -> bool
    ensures { result ≡ is_closed every chosen }
{
    every != 0 || 4 <= chosen
}

// What the relation of an `every` line gets: out of order if it is the second or comes before any `choose`, then by its name.
fn every_fault(s: &[u8], g: Signature, a: usize, e: usize) -> Result<(), Cause>
    requires { SoundSignature s.now g × (a ≤ e) × (e ≤ length s.now) }
    ensures { result ≡ every_fault s.now g (slice a e s.now) }
{
    if g.every != 0 || g.chosen == 0 {
        return Err(Cause::OutOfOrder);
    }
    new_name(s, g, a, e)
}

// What a line before the rule gets.
fn judge(s: &[u8], g: Signature, at: usize, x: Entry) -> Result<(), Cause>
    requires { SoundSignature s.now g × InText s.now at x }
    ensures { result ≡ judge_of s.now g x }
{
    match x {
        Entry::Wrong => Err(Cause::NoRecord),
        Entry::Rel(a, e, _) => {
            if late(g.types, g.chosen, g.rels) {
                return Err(Cause::OutOfOrder);
            }
            new_name(s, g, a, e)
        }
        Entry::Typed(a, e) => {
            if late(0, g.chosen, g.types) {
                return Err(Cause::OutOfOrder);
            }
            type_fault(s, &g.from, &g.to, g.types, a, e)
        }
        Entry::Choose(a, e, _, _, t, u, v) => {
            if closed(g.every, g.chosen) {
                return Err(Cause::OutOfOrder);
            }
            choose_fault(s, g, a, e, t, u, v)
        }
        Entry::Every(a, e, _) => every_fault(s, g, a, e),
        _ => Err(Cause::OutOfOrder),
    }
}

// The signature with relation i.
fn push(g: Signature, i: usize, a: usize, e: usize, k: u32, d: u32, p: Sorts) -> Signature
    requires { i < 13 }
    ensures { result ≡ pushed g i a e k d p g.rels g.chosen g.every }
{
    let mut h = g;
    h.from[i] = a;
    h.to[i] = e;
    h.arity[i] = k as usize;
    h.kind[i] = d;
    h.firsts[i] = p.firsts;
    h.seconds[i] = p.seconds;
    h
}

// The signature with one type more.
fn push_type(g: Signature, a: usize, e: usize) -> Signature
    requires { g.types < 8 }
    ensures { result ≡ typed g a e }
{
    let mut h = g;
    let i = read_names::DECLARED + g.types;
    h.from[i] = a;
    h.to[i] = e;
    h.types = g.types + 1;
    h
}

// The signature after a line that is good.
fn grow(s: &[u8], g: Signature, x: Entry) -> Signature
    requires { Room g x }
    ensures { result ≡ grown_by s.now g x }
{
    match x {
        Entry::Rel(a, e, k) => Signature {
            rels: g.rels + 1,
            ..push(g, g.rels, a, e, k, 0, UNSORTED)
        },
        Entry::Typed(a, e) => push_type(g, a, e),
        Entry::Choose(a, e, k, d, t, u, v) => Signature {
            chosen: g.chosen + 1,
            ..push(g, g.rels + g.chosen, a, e, k, d, sorts_of(s, g, t, u, v))
        },
        Entry::Every(a, e, k) => Signature {
            every: 1,
            ..push(g, g.rels + g.chosen, a, e, k, 6, UNSORTED)
        },
        _ => g,
    }
}

// No relations and no types.
fn no_relations() -> Signature
    ensures { result ≡ no_signature }
{
    Signature {
        rels: 0,
        chosen: 0,
        every: 0,
        types: 0,
        from: [0; read_names::NAMES],
        to: [0; read_names::NAMES],
        arity: [0; read_names::DECLARED],
        kind: [0; read_names::DECLARED],
        firsts: [0; read_names::DECLARED],
        seconds: [0; read_names::DECLARED],
    }
}

// Reads a question up to its rule's line.
fn question_head(s: &[u8]) -> Result<Head, Refusal>
    ensures { Headed s.now result }
{
    let end = s.len();
    if read_text::LIMIT < end {
        return Err(Cause::TooLong.at(0));
    }
    let mut g = no_relations();
    let mut at = 0;
    // no count: the next line begins where this one ends
    while at < end {
        let l = read_line::line(s, at);
        let x = l.entry;
        if let Entry::Rule(from, to) = x {
            if g.chosen == 0 {
                return Err(Cause::OutOfOrder.at(at));
            }
            return Ok(Head {
                place: at,
                sig: g,
                span: Span { from, to },
                next: l.next,
            });
        }
        judge(s, g, at, x).map_err(|c| c.at(at))?;
        g = grow(s, g, x);
        at = l.next;
    }
    Err(Cause::OutOfOrder.at(end))
}

// Why a line after the rule is refused, whatever it is.
fn after_rule(x: Entry) -> Cause
    ensures { result ≡ later_of x }
{
    match x {
        Entry::Wrong => Cause::NoRecord,
        _ => Cause::OutOfOrder,
    }
}

// Reads a question.
pub fn question(s: &[u8]) -> Result<Asked, Refusal>
    ensures { QuestionRead s.now (read_question s.now) result }
{
    let h = question_head(s)?;
    read_rule::rule_verdict(s, h.span.from, h.span.to, h.sig).map_err(|c| c.at(h.place))?;
    if h.next < s.len() {
        let l = read_line::line(s, h.next);
        return Err(after_rule(l.entry).at(h.next));
    }
    Ok(Asked {
        sig: h.sig,
        rule: h.span,
    })
}

// The span of a question's rule, an empty one at 0 where the question is refused.
fn rule_of(s: &[u8]) -> Span
    ensures { (result.from ≤ result.to) × (result.to ≤ length s.now) × (result.from ≡ (rule_part s.now).start) × (result.to - result.from ≡ (rule_part s.now).len) }
{
    match question(s) {
        Ok(q) => q.rule,
        Err(_) => Span { from: 0, to: 0 },
    }
}

// The rule's formula as a part of the question's own bytes, and where that part starts; an empty part at 0 where the question is refused.
pub fn rule_part<'a>(s: &'a [u8], start: &mut usize) -> &'a [u8]
    ensures part { result.now ≡ take (rule_part s.now).len (drop (rule_part s.now).start s.now) }
    ensures place { start.new ≡ (rule_part s.now).start }
{
    let rule = rule_of(s);
    *start = rule.from;
    &s[rule.from..rule.to]
}
