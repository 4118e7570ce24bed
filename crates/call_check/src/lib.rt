// The public calls that check steps. Each takes texts and lent buffers of any kind and any length, and asks nothing of its caller.
// What a call returns, and what each buffer then holds, is what `definitions`, `Outcome`, says of it.
#![tactic(auto)]

ghost use Rattle.std.specs.Prelude.{◌≡◌, false, List, ℕ, length, Ok};
ghost use Rattle.definitions.specs.Limits.{CaseLimits, usual};
ghost use Rattle.definitions.specs.Refusal.{accepted};
ghost use Rattle.definitions.specs.Reply.Outcome.{ThirdInput, as_text, as_numbers, take_steps, check_steps};
ghost use Rattle.bits.specs.Table.{bit};
ghost use Rattle.read_sheets.specs.Reading.{FactsRoom, RoomFor};
ghost use Rattle.open_case.specs.Fronts.{Fronted, ReadyFront};
ghost use Rattle.open_case.specs.Replies.{result_of};
ghost use Rattle.call_check.specs.Replies.{Checked};

use open_case::{Front, Reply};
use refusal::Cause;

// Steps of a case that was read and grounded: too large, a short buffer, then the steps one by one.
fn check_steps(f: Front, facts: &[u64], table: &[usize], steps: &[u32], state: &mut [u64]) -> Reply
    requires { (q : List ℕ) × ReadyFront q f facts.now table.now }
    ensures { (L : CaseLimits) (question site : List ℕ) (given : ThirdInput) → Fronted L question site (Ok f) facts.now table.now
        → take_steps given ≡ accepted steps.now → Checked L question site given state.old result state.new }
{
    let m = f.m?;
    let words = (m.atoms + 63) / 64;
    if state.len() < words {
        return Err(Cause::ShortBuffer.at(words));
    }
    let e = step_run::start_and_run(table, facts, steps, &mut state[..words]);
    open_case::reply_of(e)
}

// Steps of a case that was read and grounded, as a text: they are read into the list, which has room for them, and checked.
fn check_listed(
    f: Front,
    facts: &[u64],
    table: &[usize],
    steps: &[u8],
    list: &mut [u32],
    state: &mut [u64],
) -> Reply
    requires by_index { (q : List ℕ) × ReadyFront q f facts.now table.now }
    requires room_for { RoomFor steps.now (length list.old) }
    ensures { (L : CaseLimits) (question site : List ℕ) → Fronted L question site (Ok f) facts.now table.now
        → Checked L question site (as_text steps.now) state.old result state.new }
{
    let count = read_sheets::steps(steps, list)?;
    check_steps(f, facts, table, &list[..count], state)
}

// Checks steps that are handed over as a text, with the lent words for the site's facts and the lent list for the steps.
fn check_text_with(
    question: &[u8],
    site: &[u8],
    steps: &[u8],
    state: &mut [u64],
    facts: &mut [u64],
    list: &mut [u32],
) -> Reply
    requires facts_room { FactsRoom site.now 64 (length facts.old) × (bit facts.old ≡ λ i. false) }
    requires room_for { RoomFor steps.now (length list.old) }
    ensures { Checked usual question.now site.now (as_text steps.now) state.old result state.new }
{
    let mut table = [0usize; problem_table::TABLE];
    let f = open_case::open_case(question, site, facts, &mut table)?;
    check_listed(f, facts, &table, steps, list, state)
}

// The same with a list that goes by the text's length.
fn check_text_in(
    question: &[u8],
    site: &[u8],
    steps: &[u8],
    state: &mut [u64],
    facts: &mut [u64],
) -> Reply
    requires { FactsRoom site.now 64 (length facts.old) × (bit facts.old ≡ λ i. false) }
    ensures { Checked usual question.now site.now (as_text steps.now) state.old result state.new }
{
    open_room::with_list_into(steps, state, |list: &mut [u32], state: &mut [u64]| {
        check_text_with(question, site, steps, state, facts, list)
    })
}

// Checks steps that are lent as numbers, with the lent words for the site's facts.
fn check_lent_in(
    question: &[u8],
    site: &[u8],
    steps: &[u32],
    state: &mut [u64],
    facts: &mut [u64],
) -> Reply
    requires { FactsRoom site.now 64 (length facts.old) × (bit facts.old ≡ λ i. false) }
    ensures { Checked usual question.now site.now (as_numbers steps.now) state.old result state.new }
{
    let mut table = [0usize; problem_table::TABLE];
    let f = open_case::open_case(question, site, facts, &mut table)?;
    if open_case::STEPS < steps.len() {
        return Err(Cause::TooLong.at(0));
    }
    check_steps(f, facts, &table, steps, state)
}

// Checks steps that are handed over as a text.
pub fn check_text(question: &[u8], site: &[u8], steps: &[u8], state: &mut [u64]) -> Reply
    ensures answer { result_of result ≡ (check_steps usual question.now site.now (as_text steps.now) state.old).answer }
    ensures left { state.new ≡ (check_steps usual question.now site.now (as_text steps.now) state.old).state }
{
    open_room::with_facts_into(site, state, |facts: &mut [u64], state: &mut [u64]| {
        check_text_in(question, site, steps, state, facts)
    })
}

// Checks steps that are lent as numbers.
pub fn check_lent(question: &[u8], site: &[u8], steps: &[u32], state: &mut [u64]) -> Reply
    ensures answer { result_of result ≡ (check_steps usual question.now site.now (as_numbers steps.now) state.old).answer }
    ensures left { state.new ≡ (check_steps usual question.now site.now (as_numbers steps.now) state.old).state }
{
    open_room::with_facts_into(site, state, |facts: &mut [u64], state: &mut [u64]| {
        check_lent_in(question, site, steps, state, facts)
    })
}
