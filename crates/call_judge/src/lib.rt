// Yes or no: whether the rule is true of picks, which are handed over as a text or lent as words. No step is built, and no atom has a
// number: the rule is evaluated on the bits of facts and picks.
#![tactic(auto)]

ghost use Rattle.std.specs.Prelude.{◌≡◌, true, false, List, ◌^◌, ◌<◌, ◌≤◌, length};
ghost use Rattle.definitions.specs.Limits.{usual};
ghost use Rattle.definitions.specs.Sheet.Relations.{Tuple};
ghost use Rattle.definitions.specs.Sheet.Sheets.{Label};
ghost use Rattle.definitions.specs.Problem.Truth.{Case, values, rule_is_true};
ghost use Rattle.definitions.specs.Reply.Outcome.{as_text, as_numbers};
ghost use Rattle.definitions.specs.Reply.Judgement.{judge};
ghost use Rattle.bits.specs.Table.{bit};
ghost use Rattle.rule_nodes.specs.Tables.{Fits as «Tree_fits»};
ghost use Rattle.problem_table.specs.Lines.{Fits};
ghost use Rattle.problem_layout.specs.Laid.{RelationsFit};
ghost use Rattle.read_tuples.specs.Labels.{LabelsAre};
ghost use Rattle.read_sheets.specs.Reading.{FactsRoom, PicksRoom};
ghost use Rattle.open_case.specs.Replies.{result_of};
ghost use Rattle.call_judge.specs.Judges.{verdict, AcceptedIn, Ranged, SomeCase, Judged, HoldsWith, Asks, FromWords, FromText};

use open_case::Reply;
use problem_layout::{Ranges, Relations};
use read_sheets::Opened;
use refusal::Cause;
use rule_nodes::Nodes;

// Whether the rule holds of picks and one value of the `every` relation: its lines are filled for that value, then evaluated.
fn holds_with(
    n: usize,
    types: usize,
    members: &[u64],
    ranges: Ranges,
    g: Relations,
    t: Nodes,
    facts: &[u64],
    picks: &[u64],
    value: usize,
) -> bool
    requires { Ranged n types members.now ranges × RelationsFit g × «Tree_fits» t × SomeCase n members.now types g t × (value < 256) }
    ensures { HoldsWith n members.now types g t facts.now picks.now value result }
{
    let mut lines = [0usize; eval_rule::LINES];
    eval_table::fill(&mut lines, n, types, members, ranges, g, t, value);
    eval_table::rule_is_true(&lines, facts, picks, n)
}

// Whether the rule is true of picks: it holds with every one of the values, of which there are so many (one without an `every` line). The
// first with which it does not is the last that is tried.
fn is_true(
    n: usize,
    types: usize,
    members: &[u64],
    ranges: Ranges,
    g: Relations,
    t: Nodes,
    facts: &[u64],
    picks: &[u64],
    count: usize,
) -> bool
    requires { Ranged n types members.now ranges × RelationsFit g × «Tree_fits» t × SomeCase n members.now types g t × (count ≤ 256) }
    ensures { (c : Case) (F : List Tuple) → Judged c F n members.now types g t facts.now picks.now → count ≡ values c → result ≡ rule_is_true c F }
{
    (0..count).all(|value| holds_with(n, types, members, ranges, g, t, facts, picks, value))
}

// How many values a relation of so many tuples has.
fn values_of(tuples: usize) -> usize
    requires { tuples ≤ 8 }
    ensures { (result ≡ 2 ^ tuples) × (result ≤ 256) }
{
    rows::power(2, tuples)
}

// 16, then 17, then yes.
fn decide(
    table: &[usize],
    n: usize,
    types: usize,
    members: &[u64],
    ranges: Ranges,
    g: Relations,
    t: Nodes,
    facts: &[u64],
    picks: &[u64],
    count: usize,
) -> Reply
    requires { Fits table.now × Ranged n types members.now ranges × RelationsFit g × «Tree_fits» t × SomeCase n members.now types g t × (count ≤ 256) }
    ensures { (c : Case) (F : List Tuple) → Asks c F n members.now types g t table.now facts.now picks.now → count ≡ values c → result_of result ≡ verdict c F }
{
    if let Some(i) = step_picks::test_kinds(table, picks) {
        return Err(Cause::OtherKind.at(i));
    }
    if is_true(n, types, members, ranges, g, t, facts, picks, count) {
        return Ok(0);
    }
    Err(Cause::RuleFalse.at(0))
}

// Of a case that was read, from picks that stand in words: 11, 23, 12, 10, then what is decided. Words past the needed length are not
// looked at. (Picks read from a text have words enough, and no spare bit.)
fn judge_case(question: &[u8], o: Opened, facts: &[u64], picks: &[u64]) -> Reply
    requires { AcceptedIn question.now o (bit facts.now) }
    ensures { FromWords question.now o (bit facts.now) picks.now result }
{
    let sig = o.sig;
    let rule = o.rule;
    let n = o.n;
    let types = sig.types;
    let members = o.members;
    let ranges = problem_layout::ranges_of(n, types, &members);
    let g = problem_of_case::relations_of(sig);
    let t = rule_rewrite::nodes_of(question, rule.from, rule.to, sig);
    let m = problem_sizes::of_tables(n, ranges, g, t);
    problem_of_case::within(m, open_case::usual_limits())?;
    let count = values_of(m.tuples);
    let mut table = [0usize; problem_table::TABLE];
    let l = problem_layout::lay_out(n, ranges, g, t);
    problem_relations::fill(&mut table, n, types, &members, ranges, g, l);
    let held = step_picks::picks_length(&table);
    if picks.len() < held {
        return Err(Cause::ShortBuffer.at(held));
    }
    if let Some(j) = step_picks::spare_word(&table, picks) {
        return Err(Cause::Repeated.at(j));
    }
    decide(
        &table, n, types, &members, ranges, g, t, facts, picks, count,
    )
}

// Of a case that was read, from picks as a text: they are read into the lent words, which are enough and come in cleared.
fn judge_listed(
    question: &[u8],
    site: &[u8],
    o: Opened,
    labels: &[usize],
    facts: &[u64],
    picks: &[u8],
    words: &mut [u64],
) -> Reply
    requires accepted_in { AcceptedIn question.now o (bit facts.now) × ((ls : List Label) × LabelsAre site.now labels.now o.n ls) }
    requires picks_room { PicksRoom o.sig o.n (length words.old) × (bit words.old ≡ λ i. false) }
    ensures { FromText question.now site.now o labels.now (bit facts.now) picks.now result }
{
    let sig = o.sig;
    read_sheets::picks(question, sig, picks, o.n, site, labels, words)?;
    judge_case(question, o, facts, words)
}

// Judges picks as a text; the words for the facts are lent.
fn judge_text_in(question: &[u8], site: &[u8], picks: &[u8], facts: &mut [u64]) -> Reply
    requires { FactsRoom site.now 64 (length facts.old) × (bit facts.old ≡ λ i. false) }
    ensures { result_of result ≡ judge usual question.now site.now (as_text picks.now) }
{
    let mut labels = [0usize; read_sheets::LABELS];
    let o = read_sheets::read_filed(question, site, open_case::ELEMENTS, &mut labels, facts)?;
    open_room::with_picks(o.n, |words: &mut [u64]| {
        judge_listed(question, site, o, &labels, facts, picks, words)
    })
}

// Whether the rule is true of picks that are handed over as a text.
pub fn judge_text(question: &[u8], site: &[u8], picks: &[u8]) -> Reply
    ensures { result_of result ≡ judge usual question.now site.now (as_text picks.now) }
{
    open_room::with_facts(site, |facts: &mut [u64]| {
        judge_text_in(question, site, picks, facts)
    })
}

// Judges lent picks; the words for the facts are lent too.
fn judge_lent_in(question: &[u8], site: &[u8], picks: &[u64], facts: &mut [u64]) -> Reply
    requires { FactsRoom site.now 64 (length facts.old) × (bit facts.old ≡ λ i. false) }
    ensures { result_of result ≡ judge usual question.now site.now (as_numbers picks.now) }
{
    let o = read_sheets::read_case(question, site, open_case::ELEMENTS, facts)?;
    judge_case(question, o, facts, picks)
}

// Whether the rule is true of picks that are lent as words.
pub fn judge_lent(question: &[u8], site: &[u8], picks: &[u64]) -> Reply
    ensures { result_of result ≡ judge usual question.now site.now (as_numbers picks.now) }
{
    open_room::with_facts(site, |facts: &mut [u64]| {
        judge_lent_in(question, site, picks, facts)
    })
}
