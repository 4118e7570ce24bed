// Layers of steps taken in a lent state. A layer is tested without comparing its steps with each other: each may be taken before, they
// may be taken one after another, and after that each still has what it needs and does not itself remove.
#![tactic(auto)]

ghost use Rattle.std.specs.Prelude.{◌≡◌, ◌*◌, ◌-◌, ◌≤◌, eqb, length, if◌then◌else◌};
ghost use Rattle.definitions.specs.Lists.{all};
ghost use Rattle.definitions.specs.Refusal.{refused, accepted};
ghost use Rattle.definitions.specs.Problem.Atoms.{Problem, atoms, words_for};
ghost use Rattle.definitions.specs.Reply.Layers.{ends_test};
ghost use Rattle.meaning.specs.Means.{Good};
ghost use Rattle.meaning.specs.Layers.{NoEvery};
ghost use Rattle.bits.specs.Table.{bit};
ghost use Rattle.problem_table.specs.Lines.{Fits};
ghost use Rattle.problem_table.specs.Numbers.{ActFits};
ghost use Rattle.problem_table.specs.Of.{Is};
ghost use Rattle.problem_action.specs.Decoded.{Grounded};
ghost use Rattle.step_start.specs.Rows.{atoms_in};
ghost use Rattle.step_layers.specs.Tests.{kind_of, is_taken, stays_by, is_action, may_at, stay_at, layer_code, layer_state};
ghost use Rattle.step_layers.specs.Layers.{AreEnds, LayersEnd};
ghost use Rattle.step_layers.specs.Checks.{RunsLayers};

use step_run::End;

// Whether there is an action of a number.
fn is_action(table: &[usize], number: usize) -> bool
    requires { Grounded table.now }
    ensures { (p : Problem) → Is p table.now → result ≡ is_action p number }
{
    !step_run::is_nothing(problem_action::action_at(table, number))
}

// 0 for a set action, 1 for begin-proof, 2 for all others.
fn kind(a: problem_table::Act) -> u8
    ensures { result ≡ kind_of a }
{
    match a {
        problem_table::Act::Set(_) => 0,
        problem_table::Act::Begin => 1,
        _ => 2,
    }
}

// Whether what an action needs and does not itself remove holds: of a set action that is `guess`, of begin-proof nothing.
fn may_stay(state: &[u64], table: &[usize], a: problem_table::Act) -> bool
    requires fits { Fits table.now }
    requires act_fits { ActFits table.now a }
    ensures { result ≡ stays_by table.now (bit state.now) a }
{
    let k = kind(a);
    if k == 0 {
        return problem_table::test(state, 0);
    }
    if k == 1 {
        return true;
    }
    problem_table::may_take(state, table, a)
}

fn stay(state: &[u64], table: &[usize], number: usize) -> bool
    requires { Grounded table.now }
    ensures { (p : Problem) → Is p table.now → result ≡ stay_at p (bit state.now) number }
{
    let a = problem_action::action_at(table, number);
    may_stay(state, table, a)
}

fn are_actions(table: &[usize], steps: &[u32]) -> bool
    requires { Grounded table.now }
    ensures { (p : Problem) → Is p table.now → result ≡ all (is_action p) steps.now }
{
    for step in steps {
        if !is_action(table, *step as usize) {
            return false;
        }
    }
    true
}

fn all_may(state: &[u64], table: &[usize], steps: &[u32]) -> bool
    requires { Grounded table.now }
    ensures { (p : Problem) → Is p table.now → result ≡ all (may_at p (bit state.now)) steps.now }
{
    for step in steps {
        if !step_run::may(state, table, *step as usize) {
            return false;
        }
    }
    true
}

fn all_stay(state: &[u64], table: &[usize], steps: &[u32]) -> bool
    requires { Grounded table.now }
    ensures { (p : Problem) → Is p table.now → result ≡ all (stay_at p (bit state.now)) steps.now }
{
    for step in steps {
        if !stay(state, table, *step as usize) {
            return false;
        }
    }
    true
}

// Whether all steps of a run were taken.
fn all_taken(e: End) -> bool
    ensures { result ≡ is_taken e }
{
    matches!(e, End::Done(_) | End::NoGoal(_))
}

// A layer is taken: 0, or 13 or 14 where it is refused; the state is then of no use.
pub fn take_layer(state: &mut [u64], table: &[usize], steps: &[u32]) -> u8
    requires { Grounded table.now }
    ensures { (p : Problem) → Good p → NoEvery p → Is p table.now → atoms p ≤ 64 * length state.old
        → (result ≡ layer_code p (bit state.old) steps.now)
        × (result ≡ 0 → bit state.new ≡ layer_state p (bit state.old) steps.now) }
{
    if !are_actions(table, steps) {
        return 13;
    }
    if !all_may(state, table, steps) {
        return 14;
    }
    if !all_taken(step_run::run(state, table, steps)) {
        return 14;
    }
    if !all_stay(state, table, steps) {
        return 14;
    }
    0
}

// How layers end, and, where one is refused, how many steps there are before it.
#[derive(Clone, Copy)]
pub struct Layers {
    pub end: End,
    pub before: usize,
}

// The layers are taken from a state on, each if it may be. Where one is refused the state is of no use; that before the layer is the one
// after the steps before it.
pub fn run_layers(state: &mut [u64], table: &[usize], steps: &[u32], ends: &[u32]) -> Layers
    requires grounded { Grounded table.now }
    requires are_ends { AreEnds (length steps.now) 0 ends.now }
    ensures { (result.before ≤ length steps.now)
        × ((p : Problem) → Good p → NoEvery p → Is p table.now → atoms p ≤ 64 * length state.old
        → LayersEnd p (bit state.old) steps.now ends.now result.end result.before (bit state.new)) }
{
    let mut k: usize = 0;
    for (i, end) in ends.iter().enumerate() {
        let e = *end as usize;
        let code = take_layer(state, table, &steps[k..e]);
        if code == 13 {
            return Layers {
                end: End::NoAction(i),
                before: k,
            };
        }
        if code == 14 {
            return Layers {
                end: End::NotNow(i),
                before: k,
            };
        }
        k = e;
    }
    if problem_table::test(state, 2) {
        return Layers {
            end: End::Done(ends.len()),
            before: k,
        };
    }
    Layers {
        end: End::NoGoal(ends.len()),
        before: k,
    }
}

// The initial state is written, and the layers are taken one after another. Where one is refused, the steps before it are run once more:
// the state left is the one before the layer.
pub fn start_and_run_layers(
    table: &[usize],
    facts: &[u64],
    steps: &[u32],
    ends: &[u32],
    state: &mut [u64],
) -> End
    requires grounded { Grounded table.now }
    requires table_in_bounds { words_for (atoms_in table.now) ≤ length state.old }
    requires are_ends { AreEnds (length steps.now) 0 ends.now }
    ensures { RunsLayers table.now facts.now steps.now ends.now state.old result
        state.new }
{
    step_start::initial_state(table, facts, state);
    let r = run_layers(state, table, steps, ends);
    let end = r.end;
    if all_taken(end) {
        return end;
    }
    step_run::start_and_run(table, facts, &steps[..r.before], state);
    end
}

// 3 for ends: 0 where there is nothing wrong with them, else the layer and 1. They may not fall, and the last is the number of steps.
pub fn ends_fault(ends: &[u32], count: usize) -> usize
    ensures { (ends_test count 0 0 ends.now ≡ (if eqb result 0 then accepted tt else refused 3 (result - 1)))
        × (result ≡ 0 → AreEnds count 0 ends.now) }
{
    let mut k: usize = 0;
    for (i, end) in ends.iter().enumerate() {
        let e = *end as usize;
        if e < k {
            return i + 1;
        }
        k = e;
    }
    if k == count {
        return 0;
    }
    ends.len().max(1)
}
