// A public call: for each chosen relation, how far one pick more or less of it can move the number of built steps.
#![tactic(auto)]

ghost use Rattle.std.specs.Prelude.{◌≡◌, Bool, false, List, map, ℕ, ◌+◌, ◌^◌, ◌<◌, ◌≤◌, length};
ghost use Rattle.definitions.specs.Limits.{usual};
ghost use Rattle.definitions.specs.Lists.{from};
ghost use Rattle.definitions.specs.Problem.Atoms.{Problem};
ghost use Rattle.definitions.specs.Reply.Outcome.{read_case};
ghost use Rattle.definitions.specs.Reply.Allowance.{allowance, allowances as «allowances_of»};
ghost use Rattle.meaning.specs.Means.{Good};
ghost use Rattle.rule_nodes.specs.Tables.{Fits};
ghost use Rattle.problem_layout.specs.declared.Relations.{Relations};
ghost use Rattle.problem_layout.specs.Laid.{Inputs};
ghost use Rattle.bits.specs.Table.{bit};
ghost use Rattle.read_sheets.specs.Reading.{FactsRoom};
ghost use Rattle.read_sheets.specs.Opening.{CaseRead};
ghost use Rattle.problem_of_case.specs.Grounds.{Read};
ghost use Rattle.open_case.specs.Replies.{result_of};
ghost use Rattle.call_allowance.specs.Allows.{Allows};

use open_case::Reply;
use read_sheets::Opened;
use refusal::Cause;

// The allowances of the relations from number `first` on, one into each word.
fn write(n: usize, t: rule_nodes::Nodes, first: usize, out: &mut [u64])
    requires { (0 < n) × (n ≤ 64) × Fits t × (first + length out.old < 2 ^ 32) }
    ensures { (p : Problem) (w : List ℕ) (types : ℕ) (g : Relations) → Good p → Inputs p n w types g t → out.new ≡ map (allowance p) (from first (length out.old)) }
{
    for (k, word) in out.iter_mut().enumerate() {
        let moved = problem_mentions::allowance(n, t, first + k);
        *word = moved as u64;
    }
}

// Of a case that was read: 11, 23 of any case with an `every` line, 12, then the numbers.
fn of_case(question: &[u8], o: Opened, out: &mut [u64]) -> Reply
    requires { Read question.now o }
    ensures { (site : List ℕ) (facts : ℕ → Bool) → CaseRead question.now (read_case usual question.now site) (Ok o) facts
        → Allows usual question.now site out.old result out.new }
{
    let sig = o.sig;
    let rule = o.rule;
    let n = o.n;
    let members = o.members;
    let ranges = problem_layout::ranges_of(n, sig.types, &members);
    let g = problem_of_case::relations_of(sig);
    let t = rule_rewrite::nodes_of(question, rule.from, rule.to, sig);
    let m = problem_sizes::of_tables(n, ranges, g, t);
    problem_of_case::within(m, open_case::usual_limits())?;
    if m.every {
        return Err(Cause::HasEvery.at(0));
    }
    let count = sig.chosen;
    if out.len() < count {
        return Err(Cause::ShortBuffer.at(count));
    }
    write(n, t, 5 + sig.rels, &mut out[..count]);
    Ok(0)
}

// One number for each `choose`, in order, at the front of the lent buffer, with the lent words for the site's facts.
fn allowances_in(question: &[u8], site: &[u8], out: &mut [u64], facts: &mut [u64]) -> Reply
    requires { FactsRoom site.now 64 (length facts.old) × (bit facts.old ≡ λ i. false) }
    ensures { Allows usual question.now site.now out.old result out.new }
{
    let o = read_sheets::read_case(question, site, open_case::ELEMENTS, facts)?;
    of_case(question, o, out)
}

// One number for each `choose`, in order, at the front of the lent buffer.
pub fn allowances(question: &[u8], site: &[u8], out: &mut [u64]) -> Reply
    ensures answer { result_of result ≡ («allowances_of» usual question.now site.now out.old).answer }
    ensures left { out.new ≡ («allowances_of» usual question.now site.now out.old).allowances }
{
    open_room::with_facts_into(site, out, |facts: &mut [u64], out: &mut [u64]| {
        allowances_in(question, site, out, facts)
    })
}
