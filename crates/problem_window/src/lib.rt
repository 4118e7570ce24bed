// The window of a case by one pass over its node table: how many layers its plans have at the least, and the built ones at the most.
#![tactic(auto)]

ghost use Rattle.std.specs.Prelude.{◌≡◌, List, ℕ, ◌^◌, ◌≤◌, ◌<◌, max, min, eqb, ltb, if◌then◌else◌};
ghost use Rattle.definitions.specs.Problem.Atoms.{Problem};
ghost use Rattle.definitions.specs.Reply.Layers.{case_window};
ghost use Rattle.meaning.specs.Means.{Good};
ghost use Rattle.rule_nodes.specs.Tables.{Fits};
ghost use Rattle.problem_layout.specs.declared.Relations.{Relations};
ghost use Rattle.problem_layout.specs.Laid.{RangesFit, RangesAre, Inputs};
ghost use Rattle.problem_window.specs.Folds.{lower_by, upper_by};

use problem_layout::Ranges;

// The two numbers.
#[derive(Clone, Copy)]
pub struct Window {
    pub lower: usize,
    pub upper: usize,
}

// What a part gives: a literal (tag 0 or 1) nothing, a node what is known of it.
fn part_gives(tag: u8, known: usize) -> usize
    ensures { result ≡ (if ltb tag 2 then 0 else known) }
{
    if tag < 2 {
        return 0;
    }
    known
}

// The lower number of a node: of a `forall` (kind 0) as many as its range has more than its part's, of an `or` (kind 3) one more than the
// least of its parts', of the others one more than the greatest.
fn node_lower(kind: usize, count: usize, least: usize, greatest: usize) -> usize
    requires { (count ≤ 64) × (least ≤ 2 ^ 20) × (greatest ≤ 2 ^ 20) }
    ensures { result ≡ lower_by kind count least greatest }
{
    if kind == 0 {
        return count + greatest;
    }
    if kind < 3 {
        return 1 + greatest;
    }
    1 + least
}

fn node_upper(kind: usize, count: usize, greatest: usize) -> usize
    requires { (count ≤ 64) × (greatest ≤ 2 ^ 20) }
    ensures { result ≡ upper_by kind count greatest }
{
    if kind == 0 {
        return count + greatest;
    }
    1 + greatest
}

// Nodes are gone through from the last one up, so that the nodes among a node's parts have their numbers before it; the root is node 0.
pub fn of_tables(n: usize, ranges: Ranges, t: rule_nodes::Nodes) -> Window
    requires { Fits t × RangesFit n ranges }
    ensures { (p : Problem) (w : List ℕ) (k : ℕ) (g : Relations) → Good p → RangesAre n w k ranges → Inputs p n w k g t
        → (result.lower ≡ (case_window p).lower) × (result.upper ≡ (case_window p).upper) }
{
    let mut lows = [0usize; rule_nodes::NODES];
    let mut highs = [0usize; rule_nodes::NODES];
    for v in (0..t.count).rev() {
        let row = t.rows[v];
        let first = rule_nodes::wide(row.first);
        let many = rule_nodes::wide(row.many);
        let mut least: usize = 0;
        let mut low: usize = 0;
        let mut high: usize = 0;
        for (k, q) in t.parts[first..first + many].iter().enumerate() {
            let which = rule_nodes::wide(q.which);
            let x = part_gives(q.tag, lows[which]);
            least = if k == 0 { x } else { least.min(x) };
            low = low.max(x);
            high = high.max(part_gives(q.tag, highs[which]));
        }
        let kind = rule_nodes::wide(row.kind);
        let count = ranges.count[rule_nodes::wide(row.sort)];
        lows[v] = node_lower(kind, count, least, low);
        highs[v] = node_upper(kind, count, high);
    }
    Window {
        lower: lows[0] + 2,
        upper: highs[0] + 3,
    }
}
