// The relations and types of a question as a signature; a relation's number by its name, the built-in ones first, then those declared,
// and a type's.
#![tactic(auto)]

ghost use Rattle.std.specs.Prelude.{◌≡◌, ◌&&◌, ◌+◌, ◌≤◌, ◌<◌, length};
ghost use Rattle.std.proofs.Math.Seq.{slice};
ghost use Rattle.definitions.specs.Lists.{same, any as any_of, position};
ghost use Rattle.definitions.specs.Sheet.Relations.{number_of, is_declared};
ghost use Rattle.definitions.specs.Sheet.Formula.{type_number};
ghost use Rattle.read_text.specs.Spans.{option_of};
ghost use Rattle.read_names.specs.Signatures.{is_wanted, relations_from, types_in, all_of, with_arrays, lent_of, Lent, matches, has_arity, counted};

// How many relations a question declares at the most.
pub const DECLARED: usize = 13;

// How many types, and how many names there are then.
pub const TYPES: usize = 8;

pub const NAMES: usize = DECLARED + TYPES;

// Names as spans of a text, arities, kinds by number, the sorts of both places; first each `rel`, then each `choose`, then that of an
// `every` line, of which there is one or none. The names of types stand from DECLARED on, and those of types that are not there are empty.
#[derive(Clone, Copy)]
pub struct Signature {
    pub rels: usize,
    pub chosen: usize,
    pub every: usize,
    pub types: usize,
    pub from: [usize; NAMES],
    pub to: [usize; NAMES],
    pub arity: [usize; DECLARED],
    pub kind: [u32; DECLARED],
    pub firsts: [u8; DECLARED],
    pub seconds: [u8; DECLARED],
}

// The table of the five built-in relations, EQ, LT, SUC, ZERO and MAX: names as spans of `EQLTSUCZEROMAX`, and arities.
const STARTS: [usize; DECLARED] = [0, 2, 4, 7, 11, 0, 0, 0, 0, 0, 0, 0, 0];

const ENDS: [usize; DECLARED] = [2, 4, 7, 11, 14, 0, 0, 0, 0, 0, 0, 0, 0];

const ARITIES: [usize; DECLARED] = [2, 2, 2, 1, 1, 0, 0, 0, 0, 0, 0, 0, 0];

// A relation with the name from b to f of q, and an arity, has the name from a to e of s and the wanted arity, or any where none is.
fn fits(
    q: &[u8],
    b: usize,
    f: usize,
    arity: usize,
    s: &[u8],
    a: usize,
    e: usize,
    wanted: Option<usize>,
) -> bool
    ensures { result ≡ (same (slice b f q.now) (slice a e s.now) && is_wanted wanted arity) }
{
    wanted.is_none_or(|k| arity == k) && read_text::same_span(q, b, f, s, a, e)
}

// The first of the m relations from lo on that has the name from a to e of s and the wanted arity, or any where none is. The
// arrays of a signature come as slices, so that no call copies it.
pub fn lookup(
    q: &[u8],
    from: &[usize],
    to: &[usize],
    arity: &[usize],
    lo: usize,
    m: usize,
    s: &[u8],
    a: usize,
    e: usize,
    wanted: Option<usize>,
) -> Option<usize>
    requires { (lo + m ≤ 21) × (lo + m ≤ length from.now) × (lo + m ≤ length to.now) × (lo + m ≤ length arity.now) }
    ensures { (g : Signature) → result ≡ option_of (counted lo (position (matches (slice a e s.now) wanted)
        (relations_from q.now (with_arrays g from.now to.now arity.now) lo m))) }
{
    let hi = lo + m;
    for i in lo..hi {
        if fits(q, from[i], to[i], arity[i], s, a, e, wanted) {
            return Some(i);
        }
    }
    None
}

// The number of the first relation of all that has the name and the wanted arity, or any where none is. Declared are the m of a
// signature whose arrays are lent.
fn search(
    s: &[u8],
    from: &[usize],
    to: &[usize],
    arity: &[usize],
    m: usize,
    a: usize,
    e: usize,
    wanted: Option<usize>,
) -> Option<usize>
    requires { (m ≤ 13) × (13 ≤ length from.now) × (13 ≤ length to.now) × (13 ≤ length arity.now) }
    ensures { (g : Signature) → m ≡ g.rels + g.chosen + g.every → g.every ≤ 1 → result ≡ option_of (position (matches (slice a e s.now) wanted)
        (all_of s.now (with_arrays g from.now to.now arity.now))) }
{
    let built_in = lookup(
        b"EQLTSUCZEROMAX",
        &STARTS,
        &ENDS,
        &ARITIES,
        0,
        5,
        s,
        a,
        e,
        wanted,
    );
    if built_in.is_some() {
        return built_in;
    }
    let i = lookup(s, from, to, arity, 0, m, s, a, e, wanted)?;
    Some(5 + i)
}

// The number of the relation that the span names, in a signature whose names and count are lent. Any arity will do, so that no array
// of arities is looked at.
pub fn relation(
    s: &[u8],
    from: &[usize],
    to: &[usize],
    m: usize,
    a: usize,
    e: usize,
) -> Option<usize>
    requires { (m ≤ 13) × (13 ≤ length from.now) × (13 ≤ length to.now) }
    ensures { (g : Signature) → Lent g from.now to.now m → result ≡ option_of (number_of (all_of s.now g) (slice a e s.now)) }
{
    search(s, from, to, from, m, a, e, None)
}

// Whether the span names a relation, in a signature whose names and count are lent.
pub fn is_declared(s: &[u8], from: &[usize], to: &[usize], m: usize, a: usize, e: usize) -> bool
    requires { (m ≤ 13) × (13 ≤ length from.now) × (13 ≤ length to.now) }
    ensures { (g : Signature) → Lent g from.now to.now m → result ≡ is_declared (all_of s.now g) (slice a e s.now) }
{
    relation(s, from, to, m, a, e).is_some()
}

// Whether the span names a relation with `count` places, among those of a signature whose arrays and count are lent.
pub fn known(
    s: &[u8],
    from: &[usize; NAMES],
    to: &[usize; NAMES],
    arity: &[usize; DECLARED],
    m: usize,
    a: usize,
    e: usize,
    count: usize,
) -> bool
    requires { m ≤ 13 }
    ensures { result ≡ any_of (has_arity (slice a e s.now) count) (all_of s.now (lent_of from.now to.now arity.now m)) }
{
    search(s, from, to, arity, m, a, e, Some(count)).is_some()
}

// The number of the type that the span from a to e of s names, among the first k of a signature whose names are lent.
pub fn type_named(
    q: &[u8],
    from: &[usize],
    to: &[usize],
    k: usize,
    s: &[u8],
    a: usize,
    e: usize,
) -> Option<usize>
    requires { (k ≤ 8) × (21 ≤ length from.now) × (21 ≤ length to.now) }
    ensures { result ≡ option_of (type_number (types_in q.now from.now to.now k) (slice a e s.now)) }
{
    let i = lookup(q, from, to, from, DECLARED, k, s, a, e, None)?;
    Some(i - DECLARED)
}
