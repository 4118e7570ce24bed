// What the PDDL calls test of a case that was opened (document 02, job 11).
#![tactic(auto)]

ghost use Rattle.std.specs.Prelude.{◌≡◌};
ghost use Rattle.open_pddl.specs.Gates.{gate as «gate_of»};

use open_case::Front;
use problem_of_case::Sized;
use refusal::{Cause, Refusal};

// How large the case's problem is, once a third input was read. PDDL has no types and no `every` line: such a case is refused, and one that
// is over the limits, which are told between the two.
pub fn gate(f: Front) -> Result<Sized, Refusal>
    ensures { result ≡ «gate_of» f }
{
    let o = f.o;
    let sig = o.sig;
    if sig.types != 0 {
        return Err(Cause::BeyondPddl.at(0));
    }
    let m = f.m?;
    if sig.every != 0 {
        return Err(Cause::HasEvery.at(0));
    }
    Ok(m)
}
