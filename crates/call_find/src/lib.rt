// The least picks of the declared kinds that make the rule true, for a site without a planner.
#![tactic(auto)]

ghost use Rattle.std.specs.Prelude.{◌≡◌, false, List, ℕ, ◌≤◌, length};
ghost use Rattle.definitions.specs.Limits.{usual};
ghost use Rattle.definitions.specs.Problem.Truth.{Case};
ghost use Rattle.definitions.specs.Reply.Outcome.{read_case};
ghost use Rattle.definitions.specs.Reply.Finding.{found_words, find as «find_of»};
ghost use Rattle.bits.specs.Table.{bit};
ghost use Rattle.problem_table.specs.Lines.{Fits};
ghost use Rattle.step_picks.specs.Copies.{picks_in};
ghost use Rattle.eval_table.specs.Numbers.{OfCase};
ghost use Rattle.eval_search.specs.Steps.{Asks};
ghost use Rattle.read_sheets.specs.Reading.{FactsRoom};
ghost use Rattle.read_sheets.specs.Opening.{CaseRead};
ghost use Rattle.open_case.specs.Replies.{result_of};
ghost use Rattle.call_find.specs.Finds.{AcceptedIn, Answers, least_words};

use open_case::Reply;
use read_sheets::Opened;
use refusal::Cause;

// Of a case with room for its picks: 20, 21, or the picks of the least number written.
fn search(
    table: &[usize],
    lines: &[usize],
    facts: &[u64],
    n: usize,
    held: usize,
    picks: &mut [u64],
) -> Reply
    requires { Fits table.now × OfCase n lines.now × (held ≡ picks_in table.now) × (held ≤ length picks.old) }
    ensures { (c : Case) → Asks c n table.now lines.now facts.now → Answers (least_words c) picks.old result picks.new }
{
    let cells = eval_search::count_cells(table);
    if eval_search::CELLS < cells {
        return Err(Cause::TooManyCells.at(0));
    }
    let Some(m) = eval_search::least_number(table, lines, facts, n, cells) else {
        return Err(Cause::NoPicks.at(0));
    };
    let mut words = [0u64; eval_search::PICK_WORDS];
    eval_search::number_picks(table, &mut words, cells, m);
    problem_table::copy(picks, &words, held);
    Ok(0)
}

// Of a case that was read: 11, 23 of any case with an `every` line, 12, then what is found.
fn find_case(question: &[u8], o: Opened, facts: &[u64], picks: &mut [u64]) -> Reply
    requires { AcceptedIn question.now o (bit facts.now) }
    ensures { (site : List ℕ) → CaseRead question.now (read_case usual question.now site) (Ok o) (bit facts.now)
        → Answers (found_words usual question.now site (length picks.old)) picks.old result picks.new }
{
    let sig = o.sig;
    let rule = o.rule;
    let n = o.n;
    let types = sig.types;
    let members = o.members;
    let ranges = problem_layout::ranges_of(n, types, &members);
    let g = problem_of_case::relations_of(sig);
    let t = rule_rewrite::nodes_of(question, rule.from, rule.to, sig);
    let m = problem_sizes::of_tables(n, ranges, g, t);
    problem_of_case::within(m, open_case::usual_limits())?;
    if m.every {
        return Err(Cause::HasEvery.at(0));
    }
    let mut table = [0usize; problem_table::TABLE];
    let l = problem_layout::lay_out(n, ranges, g, t);
    problem_relations::fill(&mut table, n, types, &members, ranges, g, l);
    let held = step_picks::picks_length(&table);
    if picks.len() < held {
        return Err(Cause::ShortBuffer.at(held));
    }
    let mut lines = [0usize; eval_rule::LINES];
    eval_table::fill(&mut lines, n, types, &members, ranges, g, t, 0);
    search(&table, &lines, facts, n, held, picks)
}

// The words for the facts are lent.
fn find_in(question: &[u8], site: &[u8], picks: &mut [u64], facts: &mut [u64]) -> Reply
    requires { FactsRoom site.now 64 (length facts.old) × (bit facts.old ≡ λ i. false) }
    ensures { Answers (found_words usual question.now site.now (length picks.old)) picks.old result picks.new }
{
    let o = read_sheets::read_case(question, site, open_case::ELEMENTS, facts)?;
    find_case(question, o, facts, picks)
}

// The least picks, written to the front of the lent words; a refusal leaves them.
#[tactic(auto, unfolding(definitions::specs::Reply::Finding::find))]
pub fn find(question: &[u8], site: &[u8], picks: &mut [u64]) -> Reply
    ensures answer { result_of result ≡ («find_of» usual question.now site.now picks.old).answer }
    ensures left { picks.new ≡ («find_of» usual question.now site.now picks.old).picks }
{
    open_room::with_facts_into(site, picks, |facts: &mut [u64], picks: &mut [u64]| {
        find_in(question, site, picks, facts)
    })
}
