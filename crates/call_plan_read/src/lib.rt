// A plan read from PDDL (document 02, job 11): its lines as steps by their numbers.
#![tactic(auto)]

ghost use Rattle.std.specs.Prelude.{◌≡◌, false, List, ℕ, length, Ok};
ghost use Rattle.definitions.specs.Limits.{usual};
ghost use Rattle.definitions.specs.Reply.Pddl.{read_plan};
ghost use Rattle.bits.specs.Table.{bit};
ghost use Rattle.read_sheets.specs.Reading.{FactsRoom};
ghost use Rattle.open_case.specs.Fronts.{Fronted};
ghost use Rattle.open_case.specs.Replies.{result_of};
ghost use Rattle.call_plan.specs.Written.{Begun};
ghost use Rattle.call_plan_read.specs.Answered.{PlanReadAs};

use open_case::{Front, Reply};
use refusal::Cause;

// The steps of a plan of a case that was opened: how its text is wrong, what PDDL can't say or is over the limits, a short buffer, the first
// line that is no step, then the numbers. That all lines are steps is seen before any number is written to the buffer.
fn read_lines(f: Front, question: &[u8], table: &[usize], plan: &[u8], steps: &mut [u32]) -> Reply
    requires { Begun question.now f table.now }
    ensures { (site facts : List ℕ) → Fronted usual question.now site (Ok f) facts table.now
        → PlanReadAs question.now site plan.now steps.old result steps.new }
{
    let count = read_plan::form(plan)?;
    open_pddl::gate(f)?;
    if steps.len() < count {
        return Err(Cause::ShortBuffer.at(count));
    }
    let o = f.o;
    let sig = o.sig;
    let mut names = [0usize; print_page::NAMES];
    print_page::names_of(sig, &mut names);
    let mut scratch = [0u32; 1];
    read_plan::steps(question, &names, table, plan, &mut scratch)?;
    read_plan::steps(question, &names, table, plan, steps)
}

// The same for two texts; the words for the facts are lent.
fn read_plan_in(
    question: &[u8],
    site: &[u8],
    plan: &[u8],
    steps: &mut [u32],
    facts: &mut [u64],
) -> Reply
    requires { FactsRoom site.now 64 (length facts.old) × (bit facts.old ≡ λ i. false) }
    ensures { PlanReadAs question.now site.now plan.now steps.old result steps.new }
{
    let mut table = [0usize; problem_table::TABLE];
    let f = open_case::open_case(question, site, facts, &mut table)?;
    read_lines(f, question, &table, plan, steps)
}

// Reads the steps of a plan.
pub fn read_plan(question: &[u8], site: &[u8], plan: &[u8], steps: &mut [u32]) -> Reply
    ensures answer { result_of result ≡ (read_plan usual question.now site.now plan.now steps.old).answer }
    ensures steps { steps.new ≡ (read_plan usual question.now site.now plan.now steps.old).steps }
{
    open_room::with_facts_into(site, steps, |facts: &mut [u64], steps: &mut [u32]| {
        read_plan_in(question, site, plan, steps, facts)
    })
}
