// From a case that was read to the table of its numbered problem, or its refusal (11 or 23). The relations are numbered on the way: the built-in
// ones first, then those declared.
#![tactic(auto)]

ghost use Rattle.std.specs.Prelude.{◌≡◌, ℕ, ◌+◌, ◌-◌, ◌≤◌, ◌<◌, Bool, length, ltb, if◌then◌else◌, slice_index_or};
ghost use Rattle.definitions.specs.Problem.Truth.{Case};
ghost use Rattle.definitions.specs.Reply.Outcome.{ground as «ground_of»};
ghost use Rattle.rows.specs.Values.{Most};
ghost use Rattle.problem_table.specs.Lines.{table_length};
ghost use Rattle.read_sheets.specs.Opening.{Holds};
ghost use Rattle.problem_of_case.specs.Grounds.{Read, GroundsTo, Within};
ghost use Rattle.read_text.specs.Spans.{kind_of};
ghost use Rattle.problem_table.specs.Of.{kind_number};
ghost use Rattle.definitions.specs.Limits.{CaseLimits};
ghost use Rattle.problem_layout.specs.Laid.{RelationsFit, number_limit};
ghost use Rattle.read_names.specs.Signatures.{HasArity, HasKind};
ghost use Rattle.problem_of_case.specs.Numbered.{Declared, Numbered, SortAt};

use problem_layout::Relations;
use problem_sizes::{Limits, Tally};
use read_names::Signature;
use read_sheets::Opened;
use refusal::{Cause, Refusal};

// A kind's number as a signature has it, with none above 6.
fn kind_number(k: u32) -> usize
    ensures { (result ≡ kind_number (kind_of k)) × (result ≤ 6) }
{
    k.min(6) as usize
}

// What is declared is lent below array by array: handed over with each relation, the signature would be copied as often.

// The arity of relation r, by the arities of those that are declared.
fn arity_at(arities: &[usize; read_names::DECLARED], r: usize) -> usize
    requires { r < 18 }
    ensures { (g : Signature) → g.arity ≡ arities.now → r < 5 + (g.rels + g.chosen + g.every) → g.every ≤ 1 → HasArity g r result }
{
    if r < 3 {
        return 2;
    }
    if r < 5 {
        return 1;
    }
    let i = r - 5;
    arities[i]
}

// What else relation r has, by what those have that are declared: that of its place among them, or what the built-in ones have.
fn declared_at<T: Copy>(declared: &[T; read_names::DECLARED], r: usize, built_in: T) -> T
    requires { r < 18 }
    ensures { result ≡ (if ltb r 5 then built_in else slice_index_or declared.now (r - 5) built_in) }
{
    if r < 5 {
        return built_in;
    }
    declared[r - 5]
}

// Arity and kind of each relation, and the sorts of its places.
pub fn relations_of(g: Signature) -> Relations
    requires { Declared g }
    ensures { RelationsFit result × Numbered g result }
{
    let count = 5 + (g.rels + g.chosen + g.every);
    let mut arity = [0usize; problem_layout::RELATIONS];
    let mut kind = [0usize; problem_layout::RELATIONS];
    let mut firsts = [0usize; problem_layout::RELATIONS];
    let mut seconds = [0usize; problem_layout::RELATIONS];
    for r in 0..count {
        arity[r] = arity_at(&g.arity, r);
        kind[r] = kind_number(declared_at(&g.kind, r, 0));
        firsts[r] = rule_nodes::wide(declared_at(&g.firsts, r, 0));
        seconds[r] = rule_nodes::wide(declared_at(&g.seconds, r, 0));
    }
    Relations {
        count,
        arity,
        kind,
        firsts,
        seconds,
    }
}

// Whether a problem of so many is within the limits: the refusal by size, which has a number, as a cause.
pub fn within(t: Tally, limits: Limits) -> Result<(), Refusal>
    ensures { Within t limits result }
{
    match problem_sizes::refusal(t, limits) {
        0 => Ok(()),
        11 => Err(Cause::TooLarge.at(0)),
        _ => Err(Cause::HasEvery.at(0)),
    }
}

// How many atoms and actions there are, and the bound.
#[derive(Clone, Copy)]
pub struct Sized {
    pub atoms: usize,
    pub actions: usize,
    pub bound: usize,
}

// Fills the lent table of zeros, unless a limit refuses the problem. One walk of the node table counts its atoms and actions, and
// the bound; the layout only says where each one's numbers start.
pub fn ground_case(
    question: &[u8],
    o: Opened,
    limits: Limits,
    table: &mut [usize],
) -> Result<Sized, Refusal>
    requires table_len { (length table.old ≡ table_length) × Most table.old 0 × (limits.atoms ≤ number_limit) × (limits.actions ≤ number_limit) }
    requires read { Read question.now o }
    ensures { (L : CaseLimits) (c : Case) (facts : ℕ → Bool) → L.atoms ≡ limits.atoms → L.actions ≡ limits.actions → L.steps ≡ limits.steps → Holds question.now c o facts
        → GroundsTo («ground_of» L c) result table.new }
{
    let sig = o.sig;
    let members = o.members;
    let ranges = problem_layout::ranges_of(o.n, sig.types, &members);
    let g = relations_of(sig);
    let nodes = rule_rewrite::nodes_of(question, o.rule.from, o.rule.to, sig);
    let t = problem_sizes::of_tables(o.n, ranges, g, nodes);
    within(t, limits)?;
    let l = problem_layout::lay_out(o.n, ranges, g, nodes);
    problem_layout::fill(table, o.n, sig.types, &members, ranges, g, nodes, l);
    Ok(Sized {
        atoms: t.atoms,
        actions: t.actions,
        bound: t.bound,
    })
}
