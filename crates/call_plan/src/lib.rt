// A plan in PDDL (document 02, job 11): steps by their numbers as lines.
#![tactic(auto)]

ghost use Rattle.std.specs.Prelude.{◌≡◌, false, List, ℕ, length, Ok};
ghost use Rattle.definitions.specs.Limits.{usual};
ghost use Rattle.definitions.specs.Refusal.{accepted};
ghost use Rattle.definitions.specs.Reply.Outcome.{ThirdInput, as_text, as_numbers, take_steps};
ghost use Rattle.definitions.specs.Reply.Pddl.{write_plan};
ghost use Rattle.bits.specs.Table.{bit};
ghost use Rattle.read_sheets.specs.Reading.{FactsRoom, RoomFor};
ghost use Rattle.open_case.specs.Fronts.{Fronted};
ghost use Rattle.open_case.specs.Replies.{result_of};
ghost use Rattle.call_plan.specs.Written.{Planned, Begun};

use open_case::{Front, Reply};
use refusal::Cause;

// The lines of steps of a case that was opened: what PDDL can't say or is over the limits, the first step that is no action's, a short
// buffer, then the bytes.
fn plan_steps(f: Front, question: &[u8], table: &[usize], steps: &[u32], out: &mut [u8]) -> Reply
    requires { Begun question.now f table.now }
    ensures { (site facts : List ℕ) (given : ThirdInput) → Fronted usual question.now site (Ok f) facts table.now
        → take_steps given ≡ accepted steps.now → Planned question.now site given out.old result out.new }
{
    let m = open_pddl::gate(f)?;
    let bad = print_plan::missing(steps, m.actions);
    if bad < steps.len() {
        return Err(Cause::NoAction.at(bad));
    }
    let o = f.o;
    let sig = o.sig;
    let mut names = [0usize; print_page::NAMES];
    print_page::names_of(sig, &mut names);
    let mut scratch = [0u8; 1];
    let bytes = print_plan::plan(&mut scratch, question, &names, table, steps);
    if out.len() < bytes {
        return Err(Cause::ShortBuffer.at(bytes));
    }
    print_plan::plan(out, question, &names, table, steps);
    Ok(bytes)
}

// The same of steps as a text: they are read into the list, which has room for them.
fn plan_listed(
    f: Front,
    question: &[u8],
    table: &[usize],
    steps: &[u8],
    list: &mut [u32],
    out: &mut [u8],
) -> Reply
    requires begun { Begun question.now f table.now }
    requires room_for { RoomFor steps.now (length list.old) }
    ensures { (site facts : List ℕ) → Fronted usual question.now site (Ok f) facts table.now
        → Planned question.now site (as_text steps.now) out.old result out.new }
{
    let count = read_sheets::steps(steps, list)?;
    plan_steps(f, question, table, &list[..count], out)
}

// The plan of steps as a text; the words for the facts and the list for the steps are lent.
fn plan_text_with(
    question: &[u8],
    site: &[u8],
    steps: &[u8],
    out: &mut [u8],
    facts: &mut [u64],
    list: &mut [u32],
) -> Reply
    requires facts_room { FactsRoom site.now 64 (length facts.old) × (bit facts.old ≡ λ i. false) }
    requires room_for { RoomFor steps.now (length list.old) }
    ensures { Planned question.now site.now (as_text steps.now) out.old result out.new }
{
    let mut table = [0usize; problem_table::TABLE];
    let f = open_case::open_case(question, site, facts, &mut table)?;
    plan_listed(f, question, &table, steps, list, out)
}

// The same with a list that goes by the text's length.
fn plan_text_in(
    question: &[u8],
    site: &[u8],
    steps: &[u8],
    out: &mut [u8],
    facts: &mut [u64],
) -> Reply
    requires { FactsRoom site.now 64 (length facts.old) × (bit facts.old ≡ λ i. false) }
    ensures { Planned question.now site.now (as_text steps.now) out.old result out.new }
{
    open_room::with_list_into(steps, out, |list: &mut [u32], out: &mut [u8]| {
        plan_text_with(question, site, steps, out, facts, list)
    })
}

// Writes the plan of steps that are handed over as a text.
pub fn plan_text(question: &[u8], site: &[u8], steps: &[u8], out: &mut [u8]) -> Reply
    ensures answer { result_of result ≡ (write_plan usual question.now site.now (as_text steps.now) out.old).answer }
    ensures text { out.new ≡ (write_plan usual question.now site.now (as_text steps.now) out.old).text }
{
    open_room::with_facts_into(site, out, |facts: &mut [u64], out: &mut [u8]| {
        plan_text_in(question, site, steps, out, facts)
    })
}

// The plan of lent steps; the words for the facts are lent.
fn plan_lent_in(
    question: &[u8],
    site: &[u8],
    steps: &[u32],
    out: &mut [u8],
    facts: &mut [u64],
) -> Reply
    requires { FactsRoom site.now 64 (length facts.old) × (bit facts.old ≡ λ i. false) }
    ensures { Planned question.now site.now (as_numbers steps.now) out.old result out.new }
{
    let mut table = [0usize; problem_table::TABLE];
    let f = open_case::open_case(question, site, facts, &mut table)?;
    if open_case::STEPS < steps.len() {
        return Err(Cause::TooLong.at(0));
    }
    plan_steps(f, question, &table, steps, out)
}

// Writes the plan of steps that are lent as numbers.
pub fn plan_lent(question: &[u8], site: &[u8], steps: &[u32], out: &mut [u8]) -> Reply
    ensures answer { result_of result ≡ (write_plan usual question.now site.now (as_numbers steps.now) out.old).answer }
    ensures text { out.new ≡ (write_plan usual question.now site.now (as_numbers steps.now) out.old).text }
{
    open_room::with_facts_into(site, out, |facts: &mut [u64], out: &mut [u8]| {
        plan_lent_in(question, site, steps, out, facts)
    })
}
