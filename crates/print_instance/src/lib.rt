// The instance of a case (document 02, job 11) to the byte, from the table of names, the relations by number and the words of facts.
#![tactic(auto)]

ghost use Rattle.std.specs.Prelude.{◌≡◌, true, false, [], map, ◌+◌, ◌-◌, ◌*◌, ◌^◌, ◌≤◌, ◌<◌, if◌then◌else◌};
ghost use Rattle.definitions.specs.Lists.{flat_map, from, below};
ghost use Rattle.definitions.specs.Sheet.Formula.{write_each};
ghost use Rattle.definitions.specs.Sheet.Relations.{built_in_holds};
ghost use Rattle.definitions.specs.Problem.Atoms.{places_of};
ghost use Rattle.definitions.specs.Reply.Pddl.{object_word, indented};
ghost use Rattle.bits.specs.Table.{bit};
ghost use Rattle.step_start.specs.Rows.{holds_at};
ghost use Rattle.print_bytes.specs.Emitted.{Emits};
ghost use Rattle.print_page.specs.Elements.{Names};
ghost use Rattle.print_words.specs.Words.{codes_of, atom_in, WordFits, TermsFit};
ghost use Rattle.print_instance.specs.Texts.{agree, word_for, elements_text, row_text, tuples_text, relation_text, words_of, is_fun, is_inj, RelationsKnown, KnownFits, relations_text, instance_in};

use print_words::{Terms, Word};
use problem_layout::Relations;

// A relation over n elements: its number, arity and kind, the first word of its facts; and which of its tuples are written, those that
// hold while nothing is picked or those that do not.
#[derive(Clone, Copy)]
pub struct Known {
    pub n: usize,
    pub r: usize,
    pub arity: usize,
    pub kind: usize,
    pub first: usize,
    pub holds: bool,
}

// Whether a built-in relation holds of x, and of y where it has two places. `eval_rule` has the same for its walk over values; writing stands
// on no crate that evaluates.
fn built_in(n: usize, r: usize, x: usize, y: usize) -> bool
    requires { (r < 5) × (x < 2 ^ 40) }
    ensures { result ≡ built_in_holds n r x y }
{
    if r == 0 {
        return x == y;
    }
    if r == 1 {
        return x < y;
    }
    if r == 2 {
        return y == x + 1;
    }
    if r == 3 {
        return x == 0;
    }
    x + 1 == n
}

// Whether the tuple of a row holds while nothing is picked. The row is that of z, its last place, among those with the same places before.
fn is_so(facts: &[u64], k: Known, before: usize, z: usize) -> bool
    requires { KnownFits k × (before < 2 ^ 32) × (z < k.n) }
    ensures { result ≡ holds_at facts.now k.n k.r k.kind k.first (before * k.n + z) }
{
    if k.r < 3 {
        return built_in(k.n, k.r, before, z);
    }
    let row = before * k.n + z;
    if k.r < 5 {
        return built_in(k.n, k.r, row, 0);
    }
    if k.kind == 0 {
        return problem_table::test(facts, 64 * k.first + row);
    }
    false
}

// A line where `is` says so.
pub fn line_if(
    out: &mut [u8],
    at: usize,
    question: &[u8],
    names: &[usize],
    w: Word,
    t: Terms,
    is: bool,
) -> usize
    requires { Names question.now names.now × WordFits w × TermsFit t }
    ensures { Emits (if is then indented 4 (atom_in question.now names.now w (codes_of t)) else []) out.old at out.new result }
{
    if is {
        return print_words::line(out, at, question, names, w, t);
    }
    at
}

// The elements at the places of a row, at most two, as terms.
fn places(n: usize, count: usize, row: usize) -> Terms
    requires { (0 < n) × (n ≤ 64) × (count ≤ 2) × (row < n ^ count) }
    ensures { TermsFit result × (result.count ≡ count) × (codes_of result ≡ map (λ x. 8 + x) (places_of n count row)) }
{
    let none = print_words::parameters(0);
    if count == 0 {
        return none;
    }
    if count == 1 {
        return print_words::with_term(none, 8 + row);
    }
    let one = print_words::with_term(none, 8 + row / n);
    print_words::with_term(one, 8 + row % n)
}

// What is said of a relation's tuples.
fn word_for(holds: bool, r: usize) -> Word
    ensures { result ≡ word_for holds r }
{
    if holds {
        return Word {
            kind: 0,
            which: r,
            shape: 0,
        };
    }
    Word {
        kind: 1,
        which: r,
        shape: 0,
    }
}

// The lines of n tuples, which have all places but the last in common.
fn run(
    out: &mut [u8],
    at: usize,
    question: &[u8],
    names: &[usize],
    facts: &[u64],
    k: Known,
    before: usize,
) -> usize
    requires { Names question.now names.now × KnownFits k × (before < k.n ^ (k.arity - 1)) }
    ensures { Emits (flat_map (row_text question.now names.now facts.now k) (from (before * k.n) k.n)) out.old at out.new result }
{
    let t = places(k.n, k.arity - 1, before);
    let w = word_for(k.holds, k.r);
    let mut next = at;
    for z in 0..k.n {
        let is = is_so(facts, k, before, z) == k.holds;
        let whole = print_words::with_term(t, 8 + z);
        next = line_if(out, next, question, names, w, whole, is);
    }
    next
}

// Those of all its tuples.
fn tuples(
    out: &mut [u8],
    at: usize,
    question: &[u8],
    names: &[usize],
    facts: &[u64],
    k: Known,
) -> usize
    requires { Names question.now names.now × KnownFits k }
    ensures { Emits (tuples_text question.now names.now facts.now k) out.old at out.new result }
{
    let runs = rows::power(k.n, k.arity - 1);
    let mut next = at;
    for before in 0..runs {
        next = run(out, next, question, names, facts, k, before);
    }
    next
}

// A line for each element.
fn elements(out: &mut [u8], at: usize, question: &[u8], names: &[usize], w: Word, n: usize) -> usize
    requires { Names question.now names.now × WordFits w × (n ≤ 64) }
    ensures { Emits (flat_map (elements_text question.now names.now w) (below n)) out.old at out.new result }
{
    let none = print_words::parameters(0);
    let mut next = at;
    for x in 0..n {
        let only = print_words::with_term(none, 8 + x);
        next = print_words::line(out, next, question, names, w, only);
    }
    next
}

fn elements_if(
    out: &mut [u8],
    at: usize,
    question: &[u8],
    names: &[usize],
    w: Word,
    n: usize,
    is: bool,
) -> usize
    requires { Names question.now names.now × WordFits w × (n ≤ 64) }
    ensures { Emits (if is then flat_map (elements_text question.now names.now w) (below n) else []) out.old at out.new result }
{
    if is {
        return elements(out, at, question, names, w, n);
    }
    at
}

// A function kind, by its number; an injective one.
pub fn is_function(kind: usize) -> bool
    ensures { result ≡ is_fun kind }
{
    if kind < 2 {
        return false;
    }
    kind < 6
}

pub fn is_injective(kind: usize) -> bool
    ensures { result ≡ is_inj kind }
{
    if kind < 4 {
        return false;
    }
    kind < 6
}

// What is said of a relation.
fn relation(
    out: &mut [u8],
    at: usize,
    question: &[u8],
    names: &[usize],
    facts: &[u64],
    k: Known,
) -> usize
    requires { Names question.now names.now × KnownFits k × (k.holds ≡ true) }
    ensures { Emits (relation_text question.now names.now facts.now k) out.old at out.new result }
{
    let held = tuples(out, at, question, names, facts, k);
    let others = Known { holds: false, ..k };
    let not = tuples(out, held, question, names, facts, others);
    let firsts = Word {
        kind: 2,
        which: k.r,
        shape: 0,
    };
    let is = is_function(k.kind);
    let one = elements_if(out, not, question, names, firsts, k.n, is);
    let seconds = Word {
        kind: 3,
        which: k.r,
        shape: 0,
    };
    let too = is_injective(k.kind);
    elements_if(out, one, question, names, seconds, k.n, too)
}

// How many words of facts a relation has.
fn words(n: usize, r: usize, arity: usize) -> usize
    requires { (0 < n) × (n ≤ 64) × (arity ≤ 3) }
    ensures { result ≡ words_of n r arity }
{
    if r < 5 {
        return 0;
    }
    (rows::power(n, arity) + 63) / 64
}

fn relations(
    out: &mut [u8],
    at: usize,
    question: &[u8],
    names: &[usize],
    facts: &[u64],
    n: usize,
    g: Relations,
) -> usize
    requires { Names question.now names.now × RelationsKnown n g }
    ensures { Emits (relations_text question.now names.now facts.now n g) out.old at out.new result }
{
    let mut first: usize = 0;
    let mut next = at;
    for r in 0..g.count {
        let arity = g.arity[r];
        let k = Known {
            n,
            r,
            arity,
            kind: g.kind[r],
            first,
            holds: true,
        };
        next = relation(out, next, question, names, facts, k);
        first += words(n, r, arity);
    }
    next
}

// The objects between the first and the last.
fn objects(out: &mut [u8], at: usize, n: usize) -> usize
    requires { n ≤ 64 }
    ensures { Emits (write_each (λ v. v) (map object_word (from 1 (n - 2)))) out.old at out.new result }
{
    let mut next = at;
    for x in 1..n.saturating_sub(1) {
        let spaced = print_bytes::byte(out, next, 32);
        next = print_names::object_word(out, spaced, x);
    }
    next
}

// The whole text.
pub fn instance(
    out: &mut [u8],
    at: usize,
    question: &[u8],
    names: &[usize],
    facts: &[u64],
    n: usize,
    g: Relations,
) -> usize
    requires { Names question.now names.now × RelationsKnown n g }
    ensures { Emits (instance_in question.now names.now facts.now n g) out.old at out.new result }
{
    let titled = print_bytes::text(
        out,
        at,
        b"(define (problem site)\n  (:domain case)\n  (:objects",
    );
    let listed = objects(out, titled, n);
    let begun = print_bytes::text(out, listed, b")\n  (:init\n    (guess)\n");
    let said = relations(out, begun, question, names, facts, n, g);
    print_bytes::text(out, said, b"  )\n  (:goal (holds_goal))\n)\n")
}
