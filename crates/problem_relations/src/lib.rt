// The flat table of a case's relations alone: what is asked of lent picks (their words, spare bits, kinds) needs no node.
#![tactic(auto)]

ghost use Rattle.std.specs.Prelude.{◌≡◌, ◌<◌, ◌≤◌, length};
ghost use Rattle.definitions.specs.Problem.Atoms.{Problem};
ghost use Rattle.rows.specs.Values.{Most};
ghost use Rattle.problem_table.specs.Lines.{table_length, Fits};
ghost use Rattle.problem_table.specs.Of.{Is};
ghost use Rattle.rule_nodes.specs.declared.Nodes.{Nodes as «Nodes_of»};
ghost use Rattle.problem_layout.specs.Laid.{RangesFit, RangesAre, RelationsFit, Inputs, Starts, Small, number_limit};
ghost use Rattle.problem_relations.specs.Bare.{no_nodes, bare, bare_layout};

use problem_layout::{Layout, Ranges, Relations};
use rule_nodes::{NodeRow, Nodes, PartRow};

// A table of nodes that has none.
fn no_nodes() -> Nodes
    ensures { result ≡ no_nodes }
{
    let part = PartRow {
        tag: 0,
        which: 0,
        sort: 0,
        levels: [0u8; 4],
        width: 0,
    };
    let row = NodeRow {
        kind: 0,
        level: 0,
        sort: 0,
        levels: [0u8; 4],
        width: 0,
        first: 0,
        many: 0,
    };
    Nodes {
        count: 0,
        placed: 0,
        rows: [row; rule_nodes::NODES],
        parts: [part; rule_nodes::NODES],
        root: part,
    }
}

// The layout without nodes: the atoms of an `every` line's relation come right behind those of the others. (They start no later than in
// the layout itself, which is said by taking the smaller number.)
fn bare_layout(n: usize, g: Relations, l: Layout) -> Layout
    requires { (0 < n) × (n ≤ 64) × RelationsFit g × Small l number_limit }
    ensures { (result ≡ bare_layout n g l) × (length l.rel ≡ 19) × (length l.neg ≡ 18) × (length l.dom ≡ 18) }
{
    if problem_layout::has_last(g) {
        let e = g.count - 1;
        let size = rows::power(n, g.arity[e]);
        let mut rel = l.rel;
        let mut neg = l.neg;
        let mut dom = l.dom;
        let end = rel[g.count];
        rel[e] = end;
        neg[e] = (end + size).min(neg[e]);
        dom[e] = (end + (size + size)).min(dom[e]);
        return Layout { rel, neg, dom, ..l };
    }
    l
}

// Fills the lent table of zeros with the lines of the relations and the ranges of the sorts, which their places have.
pub fn fill(
    table: &mut [usize],
    n: usize,
    types: usize,
    members: &[u64],
    ranges: Ranges,
    g: Relations,
    l: Layout,
)
    requires { (length table.old ≡ table_length) × Most table.old 0 × (0 < n) × (n ≤ 64) × RelationsFit g × Small l number_limit × (types ≤ 8) × (types ≤ length members.now)
        × RangesFit n ranges × RangesAre n members.now types ranges }
    ensures { Fits table.new × ((p : Problem) (t : «Nodes_of») → 0 < length p.relations → Inputs p n members.now types g t → Starts p l → Is (bare p) table.new) }
{
    let t = no_nodes();
    let b = bare_layout(n, g, l);
    problem_layout::fill(table, n, types, members, ranges, g, t, b);
}
