// Many step lists of one case, without the records: what is done once before all lists, and what one list gets. The case is read and
// grounded once, and its initial state is computed once. The call over lent records is crate `call_tries`.
#![tactic(auto)]

ghost use Rattle.std.specs.Prelude.{◌≡◌, false, ◌≤◌, length as «length_of»};
ghost use Rattle.definitions.specs.Limits.{usual};
ghost use Rattle.definitions.specs.Problem.Atoms.{Problem};
ghost use Rattle.definitions.specs.Problem.Strips.{run};
ghost use Rattle.bits.specs.Table.{bit};
ghost use Rattle.read_sheets.specs.Reading.{FactsRoom};
ghost use Rattle.rows.specs.Values.{Most};
ghost use Rattle.problem_table.specs.Lines.{table_length};
ghost use Rattle.definitions.specs.Reply.Tries.{try_list, ready_to_try};
ghost use Rattle.open_case.specs.Replies.{result_of};
ghost use Rattle.open_tries.specs.Begun.{BegunBy, ReadyToTry, Serves};

use open_case::Reply;
use refusal::Cause;

// Everything before the lists, with the lent words for the site's facts: the case's refusals, 11 and 12; else the problem's table, the
// initial state in the lent words, and how many of them it has.
fn begin_in(
    question: &[u8],
    site: &[u8],
    facts: &mut [u64],
    table: &mut [usize],
    state: &mut [u64],
) -> Reply
    requires facts_room { FactsRoom site.now 64 («length_of» facts.old) × (bit facts.old ≡ λ i. false) }
    requires table_value { («length_of» table.old ≡ table_length) × Most table.old 0 }
    ensures { BegunBy (ready_to_try usual question.now site.now («length_of» state.old)) state.old result table.new state.new }
{
    let f = open_case::open_case(question, site, facts, table)?;
    let m = f.m?;
    let words = (m.atoms + 63) / 64;
    if state.len() < words {
        return Err(Cause::ShortBuffer.at(words));
    }
    step_start::initial_state(table, facts, &mut state[..words]);
    Ok(words)
}

// Everything before the lists: how many words a state has, or why no list is to be tried.
pub fn begin(question: &[u8], site: &[u8], table: &mut [usize], state: &mut [u64]) -> Reply
    requires { («length_of» table.old ≡ table_length) × Most table.old 0 }
    ensures { BegunBy (ready_to_try usual question.now site.now («length_of» state.old)) state.old result table.new state.new }
{
    open_room::with_facts_into_both(
        site,
        table,
        state,
        |facts: &mut [u64], table: &mut [usize], state: &mut [u64]| {
            begin_in(question, site, facts, table, state)
        },
    )
}

// The words of a state at the most. Most problems need few, many no more than MANY, and what is cleared goes by that.
const WORDS: usize = 16384;

const MANY: usize = 1024;

const FEW: usize = 16;

// The most steps of a list.
const STEPS: u32 = 1048576;

// Steps are run in a copy of the state, which is made in the lent words.
fn run_copy(
    copied: &mut [u64],
    table: &[usize],
    state: &[u64],
    words: usize,
    steps: &[u32],
) -> Reply
    requires { ReadyToTry table.now state.now words × (words ≤ «length_of» copied.old) }
    ensures { (p : Problem) → Serves p table.now state.now words → result_of result ≡ (run p steps.now).answer }
{
    problem_table::copy(copied, state, words);
    let e = step_run::run(&mut copied[..words], table, steps);
    open_case::reply_of(e)
}

// One list: 1 for one that is too long, 12 for one that is not all there; else its steps are run, in a copy of the initial state.
pub fn try_list(
    table: &[usize],
    state: &[u64],
    words: usize,
    steps: &[u32],
    first: u32,
    length: u32,
) -> Reply
    requires { ReadyToTry table.now state.now words }
    ensures { (p : Problem) → Serves p table.now state.now words → result_of result ≡ try_list p steps.now first length }
{
    if STEPS < length {
        return Err(Cause::TooLong.at(0));
    }
    let from = first as usize;
    let end = from + length as usize;
    if steps.len() < end {
        return Err(Cause::ShortBuffer.at(end));
    }
    if words <= FEW {
        let mut few = [0u64; FEW];
        return run_copy(&mut few, table, state, words, &steps[from..end]);
    }
    if words <= MANY {
        let mut many = [0u64; MANY];
        return run_copy(&mut many, table, state, words, &steps[from..end]);
    }
    let mut copied = [0u64; WORDS];
    run_copy(&mut copied, table, state, words, &steps[from..end])
}
