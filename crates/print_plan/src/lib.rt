// The lines of a plan (document 02, job 11): steps by their numbers as actions with objects.
#![tactic(auto)]

ghost use Rattle.std.specs.Prelude.{◌≡◌, List, ℕ, ◌≤◌, ◌<◌, length, take};
ghost use Rattle.std.proofs.Math.Option.{some};
ghost use Rattle.definitions.specs.Lists.{flat_map};
ghost use Rattle.definitions.specs.Problem.Truth.{Case};
ghost use Rattle.definitions.specs.Problem.Atoms.{problem_of};
ghost use Rattle.definitions.specs.Problem.Actions.{Action, action_at};
ghost use Rattle.problem_table.specs.Lines.{size_in, Fits};
ghost use Rattle.problem_table.specs.Numbers.{ActFits};
ghost use Rattle.problem_table.specs.Of.{Is};
ghost use Rattle.problem_action.specs.Decoded.{Grounded};
ghost use Rattle.rows.specs.Values.{Within};
ghost use Rattle.print_bytes.specs.Emitted.{Emits};
ghost use Rattle.print_page.specs.Elements.{Names, NamesAre};
ghost use Rattle.print_plan.specs.Lines.{name_in, along_in, objects_in, objects_text, line_at};
ghost use Rattle.print_plan.specs.Plans.{Taken, Counted};

use print_names::Name;
use problem_table::Act;

// The name of an action.
fn name_of(a: Act) -> Name
    ensures { result ≡ name_in a }
{
    match a {
        Act::Set(t) => Name::Set(t.relation),
        Act::Begin => Name::Begin,
        Act::And(t) => Name::And(t.node),
        Act::Or(t) => Name::Or(t.node, t.choice),
        Act::Exists(t) => Name::Exists(t.node),
        Act::Forall(t) => {
            if t.choice == 0 {
                return Name::First(t.node);
            }
            Name::Next(t.node)
        }
        Act::Goal => Name::Goal,
        Act::RoundEnd => Name::Goal,
        Act::MarkIn(_) => Name::Goal,
        Act::MarkOut(_) => Name::Goal,
        Act::Nothing => Name::Nobody,
    }
}

// The objects of a `forall` at an element: the values of its free variables, and after the first element the one before it and that one.
fn along(table: &[usize], t: problem_table::ChoiceAct, values: &mut [usize]) -> usize
    requires { Fits table.now × (t.node < 64) × (6 ≤ length values.old) × Within (size_in table.now) values.old × (t.choice < size_in table.now) }
    ensures { (result ≤ 6) × (take result values.new ≡ along_in table.now t.node t.row t.choice) }
{
    if t.choice == 0 {
        return print_page::free(table, t.node, t.row, values);
    }
    let count = print_page::free_and(table, t.node, t.row, t.choice - 1, values);
    values[count] = t.choice;
    count + 1
}

// The objects of an action, and how many they are.
fn objects_of(table: &[usize], names: &[usize], a: Act, values: &mut [usize]) -> usize
    requires fits { Fits table.now × ActFits table.now a × (6 ≤ length values.old) × Within (size_in table.now) values.old }
    requires by_index { (question : List ℕ) × Names question names.now }
    ensures { (result ≤ 6) × (take result values.new ≡ objects_in table.now names.now a) }
{
    match a {
        Act::Set(t) => print_page::tuple_places(table, names, t, values),
        Act::Begin => 0,
        Act::And(t) => print_page::free(table, t.node, t.row, values),
        Act::Or(t) => print_page::free(table, t.node, t.row, values),
        Act::Exists(t) => print_page::free_and(table, t.node, t.row, t.choice, values),
        Act::Forall(t) => along(table, t, values),
        Act::Goal => 0,
        Act::RoundEnd => 0,
        Act::MarkIn(_) => 0,
        Act::MarkOut(_) => 0,
        Act::Nothing => 0,
    }
}

// Values as objects, a space before each.
fn objects(out: &mut [u8], at: usize, values: &[usize]) -> usize
    ensures { Emits (objects_text values.now) out.old at out.new result }
{
    let mut next = at;
    for x in values {
        let parted = print_bytes::byte(out, next, 32);
        next = print_names::object_word(out, parted, *x);
    }
    next
}

// The line of a step.
fn step(
    out: &mut [u8],
    at: usize,
    question: &[u8],
    names: &[usize],
    table: &[usize],
    k: usize,
) -> usize
    requires { Grounded table.now × Names question.now names.now }
    ensures { (c : Case) (a : Action) → Is (problem_of c) table.now → NamesAre (problem_of c) question.now names.now → action_at (problem_of c) k ≡ some a
        → Emits (line_at c (problem_of c) k) out.old at out.new result }
{
    let a = problem_action::action_at(table, k);
    let mut values = [0usize; 6];
    let count = objects_of(table, names, a, &mut values);
    let opened = print_bytes::byte(out, at, 40);
    let name = name_of(a);
    let named = print_names::action_word(out, opened, question, names, name);
    let listed = objects(out, named, &values[..count]);
    let closed = print_bytes::byte(out, listed, 41);
    print_bytes::byte(out, closed, 10)
}

// The lines of steps, from the front on, and how many bytes they are.
pub fn plan(
    out: &mut [u8],
    question: &[u8],
    names: &[usize],
    table: &[usize],
    steps: &[u32],
) -> usize
    requires { Grounded table.now × Names question.now names.now }
    ensures { (c : Case) → Is (problem_of c) table.now → NamesAre (problem_of c) question.now names.now → Taken (problem_of c) steps.now
        → Emits (flat_map (line_at c (problem_of c)) steps.now) out.old 0 out.new result }
{
    let mut next: usize = 0;
    for k in steps {
        next = step(out, next, question, names, table, *k as usize);
    }
    next
}

// The index of the first step that is none of so many actions, or how many steps there are.
pub fn missing(steps: &[u32], actions: usize) -> usize
    ensures { Counted steps.now actions result }
{
    for (i, k) in steps.iter().enumerate() {
        if actions <= *k as usize {
            return i;
        }
    }
    steps.len()
}
