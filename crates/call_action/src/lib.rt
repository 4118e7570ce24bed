// The public call for one action by its number. It takes texts of any kind and any length, and asks nothing of its caller.
#![tactic(auto)]

ghost use Rattle.std.specs.Prelude.{◌≡◌, false, length};
ghost use Rattle.definitions.specs.Limits.{usual};
ghost use Rattle.definitions.specs.Reply.Outcome.{action as «action_of_lem»};
ghost use Rattle.bits.specs.Table.{bit};
ghost use Rattle.read_sheets.specs.Reading.{FactsRoom};
ghost use Rattle.call_action.specs.Asked.{action_of, found};

use problem_table::Act;
use refusal::{Cause, Refusal};

// The action of number k, with the lent words for the site's facts.
fn action_in(question: &[u8], site: &[u8], k: usize, facts: &mut [u64]) -> Result<Act, Refusal>
    requires { FactsRoom site.now 64 (length facts.old) × (bit facts.old ≡ λ i. false) }
    ensures { action_of result ≡ found («action_of_lem» usual question.now site.now k) }
{
    let mut table = [0usize; problem_table::TABLE];
    let f = open_case::open_case(question, site, facts, &mut table)?;
    let m = f.m?;
    if m.actions <= k {
        return Err(Cause::NoAction.at(k));
    }
    Ok(problem_action::action_at(&table, k))
}

// The action of number k.
pub fn action(question: &[u8], site: &[u8], k: usize) -> Result<Act, Refusal>
    ensures { action_of result ≡ found («action_of_lem» usual question.now site.now k) }
{
    open_room::with_facts(site, |facts: &mut [u64]| {
        action_in(question, site, k, facts)
    })
}
