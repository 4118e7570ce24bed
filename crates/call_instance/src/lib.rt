// A public call: the instance of a case in PDDL (document 02, job 11).
#![tactic(auto)]

ghost use Rattle.std.specs.Prelude.{◌≡◌, false, List, ℕ, length, Ok};
ghost use Rattle.definitions.specs.Limits.{usual};
ghost use Rattle.definitions.specs.Reply.Pddl.{write_instance};
ghost use Rattle.bits.specs.Table.{bit};
ghost use Rattle.read_sheets.specs.Reading.{FactsRoom};
ghost use Rattle.open_case.specs.Fronts.{Fronted};
ghost use Rattle.open_case.specs.Replies.{result_of};
ghost use Rattle.call_instance.specs.Stated.{Stated, Begun};

use open_case::{Front, Reply};
use refusal::Cause;

// Of a case that was opened: what PDDL can't say or is over the limits, a short buffer, then the bytes. They are counted by writing them
// where there is no room.
fn of_case(f: Front, question: &[u8], facts: &[u64], out: &mut [u8]) -> Reply
    requires { Begun question.now f facts.now }
    ensures { (site table : List ℕ) → Fronted usual question.now site (Ok f) facts.now table
        → Stated question.now site out.old result out.new }
{
    open_pddl::gate(f)?;
    let o = f.o;
    let sig = o.sig;
    let n = o.n;
    let mut names = [0usize; print_page::NAMES];
    print_page::names_of(sig, &mut names);
    let g = problem_of_case::relations_of(sig);
    let mut scratch = [0u8; 1];
    let bytes = print_instance::instance(&mut scratch, 0, question, &names, facts, n, g);
    if out.len() < bytes {
        return Err(Cause::ShortBuffer.at(bytes));
    }
    print_instance::instance(out, 0, question, &names, facts, n, g);
    Ok(bytes)
}

// The same from the texts; the words for the facts are lent.
fn instance_in(question: &[u8], site: &[u8], out: &mut [u8], facts: &mut [u64]) -> Reply
    requires { FactsRoom site.now 64 (length facts.old) × (bit facts.old ≡ λ i. false) }
    ensures { Stated question.now site.now out.old result out.new }
{
    let mut table = [0usize; problem_table::TABLE];
    let f = open_case::open_case(question, site, facts, &mut table)?;
    of_case(f, question, facts, out)
}

// The instance, at the front of the lent buffer.
pub fn instance(question: &[u8], site: &[u8], out: &mut [u8]) -> Reply
    ensures answer { result_of result ≡ (write_instance usual question.now site.now out.old).answer }
    ensures text { out.new ≡ (write_instance usual question.now site.now out.old).text }
{
    open_room::with_facts_into(site, out, |facts: &mut [u64], out: &mut [u8]| {
        instance_in(question, site, out, facts)
    })
}
