// Which nodes of a table have a literal of a relation somewhere below them, and how many atoms these have.
#![tactic(auto)]

ghost use Rattle.std.specs.Prelude.{◌≡◌, ◌||◌, List, ℕ, ◌≤◌, ◌<◌, eqb, ltb, if◌then◌else◌};
ghost use Rattle.definitions.specs.Reply.Allowance.{allowance as «allowance_of»};
ghost use Rattle.definitions.specs.Problem.Atoms.{Problem};
ghost use Rattle.meaning.specs.Means.{Good};
ghost use Rattle.rule_nodes.specs.Tables.{Fits};
ghost use Rattle.problem_layout.specs.declared.Relations.{Relations};
ghost use Rattle.problem_layout.specs.Laid.{Inputs};

// Whether some part before was one, or this part is one: a literal (tag 0 or 1) of relation r, or a node that is marked.
fn found(before: bool, tag: u8, which: usize, marked: bool, r: usize) -> bool
    ensures { result ≡ (before || (if ltb tag 2 then eqb which r else marked)) }
{
    before || if tag < 2 { which == r } else { marked }
}

// One more than the atoms of all nodes that have a literal of relation r below them. Nodes are marked from the last one up, so that
// the nodes among a node's parts are marked before it.
pub fn allowance(n: usize, t: rule_nodes::Nodes, r: usize) -> usize
    requires { (0 < n) × (n ≤ 64) × Fits t }
    ensures { (p : Problem) (w : List ℕ) (k : ℕ) (g : Relations) → Good p → Inputs p n w k g t → result ≡ «allowance_of» p r }
{
    let mut marks = [false; rule_nodes::NODES];
    let mut total: usize = 1;
    for v in (0..t.count).rev() {
        let row = t.rows[v];
        let first = rule_nodes::wide(row.first);
        let many = rule_nodes::wide(row.many);
        let mut hit = false;
        for q in &t.parts[first..first + many] {
            let which = rule_nodes::wide(q.which);
            hit = found(hit, q.tag, which, marks[which], r);
        }
        marks[v] = hit;
        let kind = rule_nodes::wide(row.kind);
        let rows = rows::power(n, rule_nodes::wide(row.width));
        if hit {
            total += problem_layout::node_width(n, rows, kind);
        }
    }
    total
}
