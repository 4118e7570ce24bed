// Picks read from steps: once all steps were taken, the tuples of a `choose` that hold in the state are those that the steps set.
#![tactic(auto)]

ghost use Rattle.std.specs.Prelude.{◌≡◌, false, List, ℕ, ◌≤◌, length};
ghost use Rattle.definitions.specs.Limits.{usual};
ghost use Rattle.definitions.specs.Problem.Atoms.{words_for};
ghost use Rattle.definitions.specs.Reply.Outcome.{as_text, as_numbers, picks_from_steps};
ghost use Rattle.bits.specs.Table.{bit};
ghost use Rattle.problem_action.specs.Decoded.{Grounded};
ghost use Rattle.step_start.specs.Rows.{atoms_in};
ghost use Rattle.read_sheets.specs.Reading.{FactsRoom, RoomFor};
ghost use Rattle.open_case.specs.Fronts.{ReadyFront};
ghost use Rattle.open_case.specs.Replies.{result_of};
ghost use Rattle.step_picks.specs.Copies.{picks_in};
ghost use Rattle.call_read.specs.Reads.{ReadBy, Reads, ReadsGiven, PicksRead};

use open_case::{Front, Reply};
use refusal::Cause;

// Steps are run from the initial state on; where they reach the goal, their picks are written.
fn run_and_copy(
    table: &[usize],
    facts: &[u64],
    steps: &[u32],
    picks: &mut [u64],
    state: &mut [u64],
) -> Reply
    requires grounded { Grounded table.now }
    requires table_in_bounds { words_for (atoms_in table.now) ≤ length state.old }
    requires table_in_bounds_2 { picks_in table.now ≤ length picks.old }
    ensures { ReadBy table.now facts.now steps.now picks.old state.old result picks.new state.new }
{
    let ended = step_run::start_and_run(table, facts, steps, state);
    let i = open_case::reply_of(ended)?;
    step_picks::copy_picks(table, state, picks);
    Ok(i)
}

// Steps of a case that was opened: 11, 12 for the picks, 12 for the state, then the steps one by one.
fn read_steps(
    f: Front,
    facts: &[u64],
    table: &[usize],
    steps: &[u32],
    picks: &mut [u64],
    state: &mut [u64],
) -> Reply
    requires { (q : List ℕ) × ReadyFront q f facts.now table.now }
    ensures { Reads f facts.now table.now steps.now picks.old state.old result picks.new state.new }
{
    let m = f.m?;
    let needed = step_picks::picks_length(table);
    if picks.len() < needed {
        return Err(Cause::ShortBuffer.at(needed));
    }
    let words = (m.atoms + 63) / 64;
    if state.len() < words {
        return Err(Cause::ShortBuffer.at(words));
    }
    run_and_copy(table, facts, steps, picks, &mut state[..words])
}

// Steps of a case that was opened, as a text: they are read into the list, which has room for them.
fn read_listed(
    f: Front,
    facts: &[u64],
    table: &[usize],
    steps: &[u8],
    list: &mut [u32],
    picks: &mut [u64],
    state: &mut [u64],
) -> Reply
    requires by_index { (q : List ℕ) × ReadyFront q f facts.now table.now }
    requires room_for { RoomFor steps.now (length list.old) }
    ensures { ReadsGiven f facts.now table.now (as_text steps.now) picks.old state.old result picks.new state.new }
{
    let count = read_sheets::steps(steps, list)?;
    read_steps(f, facts, table, &list[..count], picks, state)
}

// Picks from steps as a text; the words for the facts and the list for the steps are lent.
fn picks_text_with(
    question: &[u8],
    site: &[u8],
    steps: &[u8],
    picks: &mut [u64],
    state: &mut [u64],
    facts: &mut [u64],
    list: &mut [u32],
) -> Reply
    requires facts_room { FactsRoom site.now 64 (length facts.old) × (bit facts.old ≡ λ i. false) }
    requires room_for { RoomFor steps.now (length list.old) }
    ensures { PicksRead usual question.now site.now (as_text steps.now) picks.old state.old result picks.new state.new }
{
    let mut table = [0usize; problem_table::TABLE];
    let f = open_case::open_case(question, site, facts, &mut table)?;
    read_listed(f, facts, &table, steps, list, picks, state)
}

// The same with a list that goes by the text's length.
fn picks_text_in(
    question: &[u8],
    site: &[u8],
    steps: &[u8],
    picks: &mut [u64],
    state: &mut [u64],
    facts: &mut [u64],
) -> Reply
    requires { FactsRoom site.now 64 (length facts.old) × (bit facts.old ≡ λ i. false) }
    ensures { PicksRead usual question.now site.now (as_text steps.now) picks.old state.old result picks.new state.new }
{
    open_room::with_list_into_both(
        steps,
        picks,
        state,
        |list: &mut [u32], picks: &mut [u64], state: &mut [u64]| {
            picks_text_with(question, site, steps, picks, state, facts, list)
        },
    )
}

// Reads picks from steps that are handed over as a text.
pub fn picks_text(
    question: &[u8],
    site: &[u8],
    steps: &[u8],
    picks: &mut [u64],
    state: &mut [u64],
) -> Reply
    ensures answer { result_of result ≡ (picks_from_steps usual question.now site.now (as_text steps.now) picks.old state.old).answer }
    ensures picks { picks.new ≡ (picks_from_steps usual question.now site.now (as_text steps.now) picks.old state.old).picks }
    ensures state { state.new ≡ (picks_from_steps usual question.now site.now (as_text steps.now) picks.old state.old).state }
{
    open_room::with_facts_into_both(
        site,
        picks,
        state,
        |facts: &mut [u64], picks: &mut [u64], state: &mut [u64]| {
            picks_text_in(question, site, steps, picks, state, facts)
        },
    )
}

// Picks from lent steps; the words for the facts are lent.
fn picks_lent_in(
    question: &[u8],
    site: &[u8],
    steps: &[u32],
    picks: &mut [u64],
    state: &mut [u64],
    facts: &mut [u64],
) -> Reply
    requires { FactsRoom site.now 64 (length facts.old) × (bit facts.old ≡ λ i. false) }
    ensures { PicksRead usual question.now site.now (as_numbers steps.now) picks.old state.old result picks.new state.new }
{
    let mut table = [0usize; problem_table::TABLE];
    let f = open_case::open_case(question, site, facts, &mut table)?;
    if open_case::STEPS < steps.len() {
        return Err(Cause::TooLong.at(0));
    }
    read_steps(f, facts, &table, steps, picks, state)
}

// Reads picks from steps that are lent as numbers.
pub fn picks_lent(
    question: &[u8],
    site: &[u8],
    steps: &[u32],
    picks: &mut [u64],
    state: &mut [u64],
) -> Reply
    ensures answer { result_of result ≡ (picks_from_steps usual question.now site.now (as_numbers steps.now) picks.old state.old).answer }
    ensures picks { picks.new ≡ (picks_from_steps usual question.now site.now (as_numbers steps.now) picks.old state.old).picks }
    ensures state { state.new ≡ (picks_from_steps usual question.now site.now (as_numbers steps.now) picks.old state.old).state }
{
    open_room::with_facts_into_both(
        site,
        picks,
        state,
        |facts: &mut [u64], picks: &mut [u64], state: &mut [u64]| {
            picks_lent_in(question, site, steps, picks, state, facts)
        },
    )
}
