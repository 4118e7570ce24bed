// A public call: the window of a case, that is how many layers its plans have at the least, and how many the built ones have at the most.
#![tactic(auto)]

ghost use Rattle.std.specs.Prelude.{◌≡◌, Bool, false, List, ℕ, length};
ghost use Rattle.definitions.specs.Limits.{usual};
ghost use Rattle.definitions.specs.Reply.Outcome.{read_case};
ghost use Rattle.definitions.specs.Reply.Layers.{window_of};
ghost use Rattle.bits.specs.Table.{bit};
ghost use Rattle.read_sheets.specs.Reading.{FactsRoom};
ghost use Rattle.read_sheets.specs.Opening.{CaseRead};
ghost use Rattle.problem_of_case.specs.Grounds.{Read};
ghost use Rattle.call_window.specs.Windows.{windowed_of};

use problem_window::Window;
use read_sheets::Opened;
use refusal::{Cause, Refusal};

// Of a case that was read: 11, 23 of any case with an `every` line, then the two numbers.
fn of_case(question: &[u8], o: Opened) -> Result<Window, Refusal>
    requires { Read question.now o }
    ensures { (site : List ℕ) (facts : ℕ → Bool) → CaseRead question.now (read_case usual question.now site) (Ok o) facts
        → windowed_of result ≡ window_of usual question.now site }
{
    let sig = o.sig;
    let rule = o.rule;
    let n = o.n;
    let members = o.members;
    let ranges = problem_layout::ranges_of(n, sig.types, &members);
    let g = problem_of_case::relations_of(sig);
    let t = rule_rewrite::nodes_of(question, rule.from, rule.to, sig);
    let m = problem_sizes::of_tables(n, ranges, g, t);
    problem_of_case::within(m, open_case::usual_limits())?;
    if m.every {
        return Err(Cause::HasEvery.at(0));
    }
    let w = problem_window::of_tables(n, ranges, t);
    Ok(w)
}

// The window of a question and a site, with the lent words for the site's facts.
fn window_in(question: &[u8], site: &[u8], facts: &mut [u64]) -> Result<Window, Refusal>
    requires { FactsRoom site.now 64 (length facts.old) × (bit facts.old ≡ λ i. false) }
    ensures { windowed_of result ≡ window_of usual question.now site.now }
{
    let o = read_sheets::read_case(question, site, open_case::ELEMENTS, facts)?;
    of_case(question, o)
}

// The window of a question and a site.
pub fn window(question: &[u8], site: &[u8]) -> Result<Window, Refusal>
    ensures { windowed_of result ≡ window_of usual question.now site.now }
{
    open_room::with_facts(site, |facts: &mut [u64]| {
        window_in(question, site, facts)
    })
}
