// The sizes of a problem in one pass over its node table; no layout is made and no table is filled. No limit is asked, and no count
// passes 2^46: with at most 64 elements, 18 relations have fewer than 2^30 atoms, 64 nodes at most 2^30 each, and the bound counts the
// nodes' atoms for each of at most 2^8 values of an `every` relation.
#![tactic(auto)]

ghost use Rattle.std.specs.Prelude.{◌≡◌, List, ℕ, ◌^◌, ◌≤◌, ◌<◌};
ghost use Rattle.definitions.specs.Problem.Atoms.{Problem};
ghost use Rattle.rule_nodes.specs.Tables.{Fits};
ghost use Rattle.problem_layout.specs.Laid.{RangesFit, RangesAre, RelationsFit, Inputs};
ghost use Rattle.problem_sizes.specs.Sums.{RelationsSummed, NodesSummed, every_size, bound_in, Tallied, refusal_in};

use problem_layout::{Ranges, Relations};

// How many atoms and actions a case may have, and how large the bound may be of one with an `every` line.
#[derive(Clone, Copy)]
pub struct Limits {
    pub atoms: usize,
    pub actions: usize,
    pub steps: usize,
}

// How many elements and nodes there are, whether there is an `every` line and how many tuples its relation has (0 where there is none),
// how many atoms and actions, and the bound (0 where that relation has more than 8 tuples).
#[derive(Clone, Copy)]
pub struct Tally {
    pub elements: usize,
    pub nodes: usize,
    pub every: bool,
    pub tuples: usize,
    pub atoms: usize,
    pub actions: usize,
    pub bound: usize,
}

// What comes before the nodes: the atoms of the phases and of the relations, the set actions, the most picks.
#[derive(Clone, Copy)]
struct Before {
    atoms: usize,
    sets: usize,
    picks: usize,
}

fn of_relations(n: usize, ranges: Ranges, g: Relations) -> Before
    requires { (0 < n) × (n ≤ 64) × RelationsFit g × RangesFit n ranges }
    ensures { RelationsSummed n ranges.count g g.count result.atoms result.sets result.picks }
{
    let mut atoms: usize = 3;
    let mut sets: usize = 0;
    let mut picks: usize = 0;
    for i in 0..g.count {
        let kind = g.kind[i];
        let size = rows::power(n, g.arity[i]);
        atoms = atoms + problem_layout::relation_width(n, size, kind);
        let firsts = ranges.count[g.firsts[i]];
        let seconds = ranges.count[g.seconds[i]];
        sets = sets + problem_layout::set_width(size, firsts, seconds, kind);
        picks = picks + problem_layout::most_width(n, size, kind);
    }
    Before { atoms, sets, picks }
}

// What the nodes have, and how many were visited.
#[derive(Clone, Copy)]
struct Walked {
    nodes: usize,
    atoms: usize,
    actions: usize,
}

// The one walk: every node once, in preorder.
fn of_nodes(n: usize, ranges: Ranges, t: rule_nodes::Nodes) -> Walked
    requires { (0 < n) × (n ≤ 64) × Fits t × RangesFit n ranges }
    ensures { NodesSummed n ranges.count t t.count result.nodes result.atoms result.actions }
{
    let mut atoms: usize = 0;
    let mut actions: usize = 0;
    let mut nodes: usize = 0;
    for row in &t.rows[..t.count] {
        let kind = rule_nodes::wide(row.kind);
        let rows = rows::power(n, rule_nodes::wide(row.width));
        atoms = atoms + problem_layout::node_width(n, rows, kind);
        let count = ranges.count[rule_nodes::wide(row.sort)];
        actions = actions + rows * problem_layout::choices(count, kind, rule_nodes::wide(row.many));
        nodes += 1;
    }
    Walked {
        nodes,
        atoms,
        actions,
    }
}

// How many tuples the relation of an `every` line has; 0 where there is none.
fn every_tuples(n: usize, g: Relations) -> usize
    requires { (0 < n) × (n ≤ 64) × RelationsFit g }
    ensures { result ≡ every_size n g }
{
    if problem_layout::has_last(g) {
        return rows::power(n, g.arity[g.count - 1]);
    }
    0
}

// The most picks, and for each value of an `every` relation with `tuples` tuples all atoms of the nodes, a mark for each tuple and one.
fn bound_of(picks: usize, atoms: usize, tuples: usize) -> usize
    requires { (picks ≤ 2 ^ 40) × (atoms ≤ 2 ^ 40) }
    ensures { result ≡ bound_in picks atoms tuples }
{
    if tuples < 9 {
        return picks + 1 + rows::power(2, tuples) * (atoms + tuples + 1);
    }
    0
}

// The tally of n elements, their ranges, the relations and the nodes of a tree.
pub fn of_tables(n: usize, ranges: Ranges, g: Relations, t: rule_nodes::Nodes) -> Tally
    requires { (0 < n) × (n ≤ 64) × RelationsFit g × Fits t × RangesFit n ranges }
    ensures { (p : Problem) (w : List ℕ) (k : ℕ) → RangesAre n w k ranges → Inputs p n w k g t → Tallied p result }
{
    let b = of_relations(n, ranges, g);
    let w = of_nodes(n, ranges, t);
    let tuples = every_tuples(n, g);
    let every = 0 < tuples;
    let atoms = b.atoms + w.atoms + 3 * tuples;
    let actions = b.sets + 1 + (w.actions + 1) + 2 * tuples;
    let bound = bound_of(b.picks, w.atoms, tuples);
    let elements = n;
    Tally {
        elements,
        nodes: w.nodes,
        every,
        tuples,
        atoms,
        actions,
        bound,
    }
}

// The refusal by size: 11 where there are more atoms or actions than the limits allow; then 23 where an `every` relation has more than 8
// tuples, or the bound is above the limit; 0 where there is none.
pub fn refusal(t: Tally, limits: Limits) -> u32
    ensures { result ≡ refusal_in t limits }
{
    if limits.atoms < t.atoms {
        return 11;
    }
    if limits.actions < t.actions {
        return 11;
    }
    if t.every {
        if 8 < t.tuples {
            return 23;
        }
        if limits.steps < t.bound {
            return 23;
        }
    }
    0
}
