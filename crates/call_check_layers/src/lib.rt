// The public call that checks a layered plan: all steps, layer after layer, and for each layer the index after its last step. It takes texts
// and lent buffers of any kind and any length, and asks nothing of its caller.
#![tactic(auto)]

ghost use Rattle.std.specs.Prelude.{◌≡◌, false, List, ℕ, length};
ghost use Rattle.definitions.specs.Limits.{CaseLimits, usual};
ghost use Rattle.definitions.specs.Refusal.{accepted};
ghost use Rattle.definitions.specs.Reply.Layers.{layers_from, take_layers, check_layers};
ghost use Rattle.bits.specs.Table.{bit};
ghost use Rattle.read_sheets.specs.Reading.{FactsRoom};
ghost use Rattle.step_layers.specs.Layers.{AreEnds};
ghost use Rattle.open_case.specs.Fronts.{Fronted, ReadyFront};
ghost use Rattle.open_case.specs.Replies.{result_of};
ghost use Rattle.call_check_layers.specs.Replies.{Checked};

use open_case::{Front, Reply};
use refusal::Cause;

// Layers of a case that was read and grounded: 11, 23 of any case with an `every` line, 12, then the layers one by one.
fn check_taken(
    f: Front,
    facts: &[u64],
    table: &[usize],
    steps: &[u32],
    ends: &[u32],
    state: &mut [u64],
) -> Reply
    requires by_index { (q : List ℕ) × ReadyFront q f facts.now table.now }
    requires are_ends { AreEnds (length steps.now) 0 ends.now }
    ensures { (L : CaseLimits) (question site : List ℕ) → Fronted L question site (Ok f) facts.now table.now
        → take_layers steps.now ends.now ≡ accepted (layers_from 0 steps.now ends.now)
        → Checked L question site steps.now ends.now state.old result state.new }
{
    let m = f.m?;
    if f.o.sig.every != 0 {
        return Err(Cause::HasEvery.at(0));
    }
    let words = (m.atoms + 63) / 64;
    if state.len() < words {
        return Err(Cause::ShortBuffer.at(words));
    }
    let e = step_layers::start_and_run_layers(table, facts, steps, ends, &mut state[..words]);
    open_case::reply_of(e)
}

// Checks a layered plan, with the lent words for the site's facts: 1 for too many steps, 3 for the ends, then the layers.
fn check_layers_in(
    question: &[u8],
    site: &[u8],
    steps: &[u32],
    ends: &[u32],
    state: &mut [u64],
    facts: &mut [u64],
) -> Reply
    requires { FactsRoom site.now 64 (length facts.old) × (bit facts.old ≡ λ i. false) }
    ensures { Checked usual question.now site.now steps.now ends.now state.old result
        state.new }
{
    let mut table = [0usize; problem_table::TABLE];
    let f = open_case::open_case(question, site, facts, &mut table)?;
    if open_case::STEPS < steps.len() {
        return Err(Cause::TooLong.at(0));
    }
    let wrong = step_layers::ends_fault(ends, steps.len());
    if wrong != 0 {
        return Err(Cause::OutOfOrder.at(wrong - 1));
    }
    check_taken(f, facts, &table, steps, ends, state)
}

// Checks a layered plan.
pub fn check_layers(
    question: &[u8],
    site: &[u8],
    steps: &[u32],
    ends: &[u32],
    state: &mut [u64],
) -> Reply
    ensures answer { result_of result
        ≡ (check_layers usual question.now site.now steps.now ends.now state.old).answer }
    ensures left { state.new
        ≡ (check_layers usual question.now site.now steps.now ends.now state.old).state }
{
    open_room::with_facts_into(site, state, |facts: &mut [u64], state: &mut [u64]| {
        check_layers_in(question, site, steps, ends, state, facts)
    })
}
