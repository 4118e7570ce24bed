// The tally of a case: of one that was read, and of two texts. The limits of 11 and 23 are not asked. Then the public call for the sizes,
// which asks them, and nothing of its caller.
#![tactic(auto)]

ghost use Rattle.std.specs.Prelude.{◌≡◌, Bool, false, ℕ, length};
ghost use Rattle.definitions.specs.Limits.{usual};
ghost use Rattle.definitions.specs.Problem.Truth.{Case};
ghost use Rattle.definitions.specs.Problem.Atoms.{problem_of};
ghost use Rattle.definitions.specs.Reply.Tally.{tally as «tally_of»};
ghost use Rattle.bits.specs.Table.{bit};
ghost use Rattle.read_sheets.specs.Reading.{FactsRoom};
ghost use Rattle.read_sheets.specs.Opening.{Holds};
ghost use Rattle.problem_of_case.specs.Grounds.{Read};
ghost use Rattle.problem_sizes.specs.Sums.{Tallied as «Tallied_as»};
ghost use Rattle.call_sizes.specs.Counts.{tallied_of, tally_in};
ghost use Rattle.definitions.specs.Reply.Outcome.{sizes as «sizes_of»};
ghost use Rattle.laws.specs.Walks.{within};
ghost use Rattle.call_sizes.specs.Answers.{sizing_of};

use problem_sizes::Tally;
use read_sheets::Opened;
use refusal::Refusal;

// The tally of a case that was read.
fn of_case(question: &[u8], o: Opened) -> Tally
    requires { Read question.now o }
    ensures { (c : Case) (facts : ℕ → Bool) → Holds question.now c o facts → «Tallied_as» (problem_of c) result }
{
    let sig = o.sig;
    let rule = o.rule;
    let n = o.n;
    let members = o.members;
    let ranges = problem_layout::ranges_of(n, sig.types, &members);
    let g = problem_of_case::relations_of(sig);
    let t = rule_rewrite::nodes_of(question, rule.from, rule.to, sig);
    problem_sizes::of_tables(n, ranges, g, t)
}

// The tally of a question and a site, with the lent words for the site's facts.
fn tally_in(question: &[u8], site: &[u8], facts: &mut [u64]) -> Result<Tally, Refusal>
    requires { FactsRoom site.now 64 (length facts.old) × (bit facts.old ≡ λ i. false) }
    ensures { tallied_of result ≡ «tally_of» usual question.now site.now }
{
    let o = read_sheets::read_case(question, site, open_case::ELEMENTS, facts)?;
    Ok(of_case(question, o))
}

// The tally of a question and a site.
pub fn tally(question: &[u8], site: &[u8]) -> Result<Tally, Refusal>
    ensures { tallied_of result ≡ «tally_of» usual question.now site.now }
{
    open_room::with_facts(site, |facts: &mut [u64]| {
        tally_in(question, site, facts)
    })
}

// How many elements, atoms and actions a problem has, and the bound.
#[derive(Clone, Copy)]
pub struct Counts {
    pub elements: usize,
    pub atoms: usize,
    pub actions: usize,
    pub bound: usize,
}

// What was counted, unless it is more than the limits allow.
fn limited(t: Tally) -> Result<Counts, Refusal>
    ensures { sizing_of result ≡ within usual (tally_in t) }
{
    problem_of_case::within(t, open_case::usual_limits())?;
    Ok(Counts {
        elements: t.elements,
        atoms: t.atoms,
        actions: t.actions,
        bound: t.bound,
    })
}

// The sizes of the numbered problem, by one walk of the tree.
pub fn sizes(question: &[u8], site: &[u8]) -> Result<Counts, Refusal>
    ensures { sizing_of result ≡ «sizes_of» usual question.now site.now }
{
    limited(tally(question, site)?)
}
