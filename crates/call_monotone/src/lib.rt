// Rules that only ever want more: whether some picks make the rule true, by all tuples picked.
#![tactic(auto)]

ghost use Rattle.std.specs.Prelude.{◌≡◌, false, not, List, ℕ, ◌+◌, ◌≤◌, ◌<◌, length};
ghost use Rattle.definitions.specs.Limits.{usual};
ghost use Rattle.definitions.specs.Lists.{any, below};
ghost use Rattle.definitions.specs.Problem.Truth.{Case};
ghost use Rattle.definitions.specs.Problem.Tree.{Tree};
ghost use Rattle.definitions.specs.Problem.Atoms.{problem_of};
ghost use Rattle.definitions.specs.Reply.Finding.{cells};
ghost use Rattle.laws.specs.Reader.{Accepted as «Accepted_case»};
ghost use Rattle.step_picks.specs.Words.{PicksAre};
ghost use Rattle.definitions.specs.Reply.Monotone.{wants_more, monotone as «monotone_of»};
ghost use Rattle.definitions.specs.Reply.Outcome.{read_case};
ghost use Rattle.bits.specs.Table.{bit};
ghost use Rattle.rule_nodes.specs.Tables.{Fits, IsTable, head_in};
ghost use Rattle.problem_layout.specs.Laid.{RelationsFit};
ghost use Rattle.read_sheets.specs.Reading.{FactsRoom};
ghost use Rattle.read_sheets.specs.Opening.{Holds, CaseRead};
ghost use Rattle.open_case.specs.Replies.{result_of};
ghost use Rattle.call_monotone.specs.Wants.{head_refuses, part_at, kind_at};
ghost use Rattle.call_monotone.specs.Answers.{AcceptedIn};

use open_case::Reply;
use problem_layout::Relations;
use read_sheets::Opened;
use refusal::Cause;
use rule_nodes::{Nodes, PartRow};

// Whether a part is a not-tuple of a relation from number `first` on.
fn part_refuses(q: PartRow, first: usize) -> bool
    ensures { result ≡ head_refuses first (head_in q) }
{
    if q.tag == 1 {
        return !(rule_nodes::wide(q.which) < first);
    }
    false
}

// Whether one of a node's parts is.
fn some_refuses(t: Nodes, at: usize, many: usize, first: usize) -> bool
    requires { Fits t × (at + many ≤ 64) }
    ensures { result ≡ any (part_at first t at) (below many) }
{
    for i in 0..many {
        let q = t.parts[at + i];
        if part_refuses(q, first) {
            return true;
        }
    }
    false
}

// Whether some literal of the tree is: its rule wants less somewhere.
fn tree_refuses(t: Nodes, first: usize) -> bool
    requires { Fits t }
    ensures { (rels : ℕ) (root : Tree) → IsTable rels root t → result ≡ not (wants_more first root) }
{
    let root = t.root;
    if part_refuses(root, first) {
        return true;
    }
    for v in 0..t.count {
        let x = t.rows[v];
        let at = rule_nodes::wide(x.first);
        let many = rule_nodes::wide(x.many);
        if some_refuses(t, at, many, first) {
            return true;
        }
    }
    false
}

// Whether one of `count` relations from number `first` on is of a function kind.
fn some_function(g: Relations, first: usize, count: usize) -> bool
    requires { RelationsFit g × (first + count ≤ 18) }
    ensures { result ≡ any (kind_at g.kind first) (below count) }
{
    for i in 0..count {
        if 1 < g.kind[first + i] {
            return true;
        }
    }
    false
}

// Of a case that was read: 11, 23, 24, which any case with an `every` line is, 21, then yes.
fn monotone_case(question: &[u8], o: Opened, facts: &[u64], all: &[u64]) -> Reply
    requires { AcceptedIn question.now o (bit facts.now) }
    ensures { (site : List ℕ) → CaseRead question.now (read_case usual question.now site) (Ok o) (bit facts.now)
        → ((c : Case) → «Accepted_case» c → Holds question.now c o (bit facts.now) → PicksAre (problem_of c) all.now (cells (problem_of c)))
        → result_of result ≡ «monotone_of» usual question.now site }
{
    let sig = o.sig;
    let rule = o.rule;
    let n = o.n;
    let types = sig.types;
    let members = o.members;
    let ranges = problem_layout::ranges_of(n, types, &members);
    let g = problem_of_case::relations_of(sig);
    let t = rule_rewrite::nodes_of(question, rule.from, rule.to, sig);
    let m = problem_sizes::of_tables(n, ranges, g, t);
    problem_of_case::within(m, open_case::usual_limits())?;
    if m.every {
        return Err(Cause::NotMonotone.at(0));
    }
    let first = 5 + sig.rels;
    if some_function(g, first, sig.chosen) {
        return Err(Cause::NotMonotone.at(0));
    }
    if tree_refuses(t, first) {
        return Err(Cause::NotMonotone.at(0));
    }
    let mut lines = [0usize; eval_rule::LINES];
    eval_table::fill(&mut lines, n, types, &members, ranges, g, t, 0);
    if eval_table::rule_is_true(&lines, facts, all, n) {
        return Ok(0);
    }
    Err(Cause::NoPicks.at(0))
}

// The words for the facts are lent.
fn monotone_in(question: &[u8], site: &[u8], facts: &mut [u64]) -> Reply
    requires { FactsRoom site.now 64 (length facts.old) × (bit facts.old ≡ λ i. false) }
    ensures { result_of result ≡ «monotone_of» usual question.now site.now }
{
    let o = read_sheets::read_case(question, site, open_case::ELEMENTS, facts)?;
    // not lent by `open_room`: these words are full, and those are clear
    if o.n <= open_case::SMALL_SIZE {
        let few = [eval_valuations::FULL; open_case::FEW_PICKS];
        return monotone_case(question, o, facts, &few);
    }
    let words = [eval_valuations::FULL; open_case::PICKS];
    monotone_case(question, o, facts, &words)
}

// Whether some picks make the rule true, where it only ever wants more.
pub fn monotone(question: &[u8], site: &[u8]) -> Reply
    ensures { result_of result ≡ «monotone_of» usual question.now site.now }
{
    open_room::with_facts(site, |facts: &mut [u64]| {
        monotone_in(question, site, facts)
    })
}
