// Steps taken one by one in a lent state, from the initial state on or from any other.
#![tactic(auto)]

ghost use Rattle.std.specs.Prelude.{◌≡◌, false, ◌*◌, ◌≤◌, length};
ghost use Rattle.std.proofs.Math.Option.{some};
ghost use Rattle.definitions.specs.Lists.{option};
ghost use Rattle.definitions.specs.Problem.Atoms.{Problem, atoms, words_for};
ghost use Rattle.definitions.specs.Problem.Actions.{Action, action_at};
ghost use Rattle.definitions.specs.Problem.Strips.{run_from, may_take, after};
ghost use Rattle.bits.specs.Table.{bit};
ghost use Rattle.problem_table.specs.Of.{Is};
ghost use Rattle.problem_action.specs.Decoded.{Grounded};
ghost use Rattle.step_run.specs.Ended.{ended, is_nothing};
ghost use Rattle.step_start.specs.Rows.{atoms_in};
ghost use Rattle.step_run.specs.Checks.{Runs};

// How a list of steps ends: all taken and the goal reached (how many), no action of that number (which step), one that may not be
// taken (which), or no goal (how many).
#[derive(Clone, Copy)]
pub enum End {
    Done(usize),
    NoAction(usize),
    NotNow(usize),
    NoGoal(usize),
}

pub fn is_nothing(a: problem_table::Act) -> bool
    ensures { result ≡ is_nothing a }
{
    matches!(a, problem_table::Act::Nothing)
}

// The steps are taken from a state on, each if it may be; the state is left as it is before the first that is refused, or at the end.
pub fn run(state: &mut [u64], table: &[usize], steps: &[u32]) -> End
    requires { Grounded table.now }
    ensures { (p : Problem) → Is p table.now → atoms p ≤ 64 * length state.old
        → (ended result ≡ (run_from p (bit state.old) 0 steps.now).answer)
        × (bit state.new ≡ (run_from p (bit state.old) 0 steps.now).state) }
{
    for (i, k) in steps.iter().enumerate() {
        let a = problem_action::action_at(table, *k as usize);
        if is_nothing(a) {
            return End::NoAction(i);
        }
        if !problem_table::may_take(state, table, a) {
            return End::NotNow(i);
        }
        problem_table::take(state, table, a);
    }
    if problem_table::test(state, 2) {
        return End::Done(steps.len());
    }
    End::NoGoal(steps.len())
}

// Whether the action of a number may be taken; of no action it may not.
pub fn may(state: &[u64], table: &[usize], number: usize) -> bool
    requires { Grounded table.now }
    ensures { (p : Problem) → Is p table.now → result ≡ option (action_at p number) false (may_take p (bit state.now)) }
{
    let a = problem_action::action_at(table, number);
    if is_nothing(a) {
        return false;
    }
    problem_table::may_take(state, table, a)
}

// The action of a number is taken.
pub fn step(state: &mut [u64], table: &[usize], number: usize)
    requires { Grounded table.now }
    ensures { (p : Problem) (x : Action) → Is p table.now → atoms p ≤ 64 * length state.old → action_at p number ≡ some x
        → bit state.new ≡ after p (bit state.old) x }
{
    let a = problem_action::action_at(table, number);
    problem_table::take(state, table, a);
}

// The initial state is written, and the steps are taken one by one.
pub fn start_and_run(table: &[usize], facts: &[u64], steps: &[u32], state: &mut [u64]) -> End
    requires grounded { Grounded table.now }
    requires table_in_bounds { words_for (atoms_in table.now) ≤ length state.old }
    ensures { Runs table.now facts.now steps.now state.old result state.new }
{
    step_start::initial_state(table, facts, state);
    run(state, table, steps)
}
