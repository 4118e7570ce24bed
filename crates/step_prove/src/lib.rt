// What building asks of one row of a node: the values of its variables, where its parts lie along a variable, and which of its actions is
// the first that may be taken.
#![tactic(auto)]

ghost use Rattle.std.specs.Prelude.{◌≡◌, true, List, [], ◌∷◌, ℕ, ◌+◌, ◌-◌, ◌*◌, ◌/◌, ◌%◌, ◌^◌, ◌<◌, ◌≤◌, length, get_or, take, set as «set_at»};
ghost use Rattle.definitions.specs.Problem.Atoms.{Problem, places_of};
ghost use Rattle.definitions.specs.Problem.Actions.{Action, action_number, values_in, with_value};
ghost use Rattle.laws.specs.Numbers.{IsAction};
ghost use Rattle.bits.specs.Table.{bit};
ghost use Rattle.rows.specs.Values.{value_in, Within, Most};
ghost use Rattle.rule_nodes.specs.Tables.{Levels};
ghost use Rattle.problem_table.specs.Lines.{table_length, size_in, part_at, NodeFits, RangeFits, Fits};
ghost use Rattle.problem_table.specs.declared.NodeLine.{NodeLine};
ghost use Rattle.problem_table.specs.Numbers.{under_at, ActFits};
ghost use Rattle.problem_table.specs.Of.{said};
ghost use Rattle.step_prove.specs.Tries.{way_by, first_from, first_by, Digits, Rest};
ghost use Rattle.step_prove.specs.Following.{ReadyToFollow, out, one};

// Where an element takes a part: its atom's number at element 0, and by how much that grows with the element.
#[derive(Clone, Copy)]
pub struct Elements {
    pub start: usize,
    pub stride: usize,
}

// Entry `at` becomes k, where there is such an entry.
pub fn put(steps: &mut [u32], at: usize, k: usize)
    ensures { k < 2 ^ 32 → steps.new ≡ «set_at» steps.old at k }
{
    if at < steps.len() {
        steps[at] = (k & 4294967295) as u32;
    }
}

// The atoms of a part along the elements of a level, the other values as they are.
pub fn along(table: &[usize], part: usize, level: usize, env: [usize; 4]) -> Elements
    requires { Fits table.now × (part < 65) × (level < 4) × Most env 64 }
    ensures { (result.start ≤ 2 ^ 42) × (result.stride ≤ 2 ^ 32) × ((x : ℕ) → part_at table.now (with_value (value_in env) level x) part ≡ result.start + x * result.stride) }
{
    let q = problem_table::part_line(table, part);
    let weights = q.weights;
    let stride = weights[level];
    // what the level's own value adds is taken off again, since a copy of the values without it would stall
    let own = env[level] * stride;
    let start = problem_table::part_number(q, env) - own;
    Elements { start, stride }
}

// The first of `count` members of a range whose bit is set: that of element 0 is `start`, and they are `stride` apart; `count` where
// none is.
fn first_member(
    state: &[u64],
    table: &[usize],
    range: usize,
    count: usize,
    start: usize,
    stride: usize,
) -> usize
    requires { (length table.now ≡ table_length) × (range + count ≤ table_length) × ((i : ℕ) → i < count → get_or table.now (range + i) 0 ≤ 64) × (start ≤ 2 ^ 42) × (stride ≤ 2 ^ 32) }
    ensures { result ≡ first_from (λ i. bit state.now (start + get_or table.now (range + i) 0 * stride)) 0 count }
{
    for (i, x) in table[range..range + count].iter().enumerate() {
        if problem_table::test(state, start + *x * stride) {
            return i;
        }
    }
    count
}

// The first of `tries` parts whose atom holds, from part `first` on; `tries` where none does.
fn first_part(state: &[u64], table: &[usize], first: usize, tries: usize, env: [usize; 4]) -> usize
    requires { Fits table.now × (first + tries ≤ 64) × Most env 64 }
    ensures { result ≡ first_from (λ i. bit state.now (part_at table.now (value_in env) (first + i))) 0 tries }
{
    for i in 0..tries {
        if problem_table::part_holds(state, table, first + i, env) {
            return i;
        }
    }
    tries
}

// The first of one try.
fn only_try(holds: bool) -> usize
    ensures { result ≡ first_from (λ i. holds) 0 1 }
{
    if holds {
        return 0;
    }
    1
}

// The values of the first `width` of the levels, by level. All four places are written, the last first, since a loop over them would
// cost a tenth of building; those past the width are 0, and what they write a place before them writes again.
pub fn spread(levels: [usize; 4], width: usize, digits: &[usize]) -> [usize; 4]
    requires { (width ≤ 4) × Levels levels × (length digits.now ≡ 4) × Most digits.now 64 × Rest width digits.now }
    ensures { Most result 64 × ((n row : ℕ) → Digits n width row digits.now → value_in result ≡ values_in (take width levels) (places_of n width row)) }
{
    let mut values = [0usize; 4];
    values[levels[3]] = digits[3];
    values[levels[2]] = digits[2];
    values[levels[1]] = digits[1];
    values[levels[0]] = digits[0];
    values
}

// How many actions a row of an `exists`, `and` or `or` has.
pub fn tries(kind: usize, many: usize, count: usize) -> usize
    requires { (0 < kind) × (many ≤ 2 ^ 11) × (count ≤ 2 ^ 11) }
    ensures { (result ≤ 2 ^ 11) × ((n : ℕ) (ms : List ℕ) (j : ℕ) → length ms ≡ count → (result ≡ (way_by n kind many ms j).tries) × (result ≡ (way_by n kind many ms j).choices)) }
{
    if kind == 1 {
        return count;
    }
    if kind == 2 {
        return 1;
    }
    many
}

// The first action of a row of an `exists`, `and` or `or` whose needs all hold; their count where there is none.
pub fn first_try(
    state: &[u64],
    n: usize,
    table: &[usize],
    v: problem_table::NodeLine,
    digits: &[usize],
) -> usize
    requires { Fits table.now × (n ≡ size_in table.now) × NodeFits v × RangeFits table.now v × (0 < v.kind) × (length digits.now ≡ 4) × Within n digits.now × Rest v.width digits.now }
    ensures { (row : ℕ) → Digits n v.width row digits.now → bit state.now 1 ≡ true → result ≡ first_by (bit state.now) n table.now v row }
{
    let levels = v.levels;
    let env = spread(levels, v.width, digits);
    if v.kind == 1 {
        let a = along(table, v.first, v.level, env);
        return first_member(state, table, v.range, v.count, a.start, a.stride);
    }
    if v.kind == 2 {
        return only_try(problem_table::parts_hold(state, table, v.first, v.many, env));
    }
    first_part(state, table, v.first, v.many, env)
}

// An action is taken and its number written.
pub fn step(
    state: &mut [u64],
    steps: &mut [u32],
    at: usize,
    table: &[usize],
    a: problem_table::Act,
    number: usize,
) -> usize
    requires fits { Fits table.now × (at < 2 ^ 50) }
    requires act_fits { ActFits table.now a }
    ensures { (result ≡ at + 1) × ((p : Problem) (x : Action) → ReadyToFollow p table.now (length state.old) → IsAction p x → a ≡ said x → number ≡ action_number p x
        → one p (out (bit state.old) steps.old at) x ≡ out (bit state.new) steps.new result) }
{
    problem_table::take(state, table, a);
    put(steps, at, number);
    at + 1
}

// The digits of the next row.
pub fn advance(n: usize, width: usize, digits: &mut [usize])
    requires { (n ≤ 64) × (width ≤ 4) × (length digits.old ≡ 4) × Within n digits.old × Rest width digits.old }
    ensures { Within n digits.new × Rest width digits.new × ((row : ℕ) → Digits n width row digits.old → Digits n width (row + 1) digits.new) }
{
    for i in (0..width).rev() {
        let d = digits[i] + 1;
        if d < n {
            digits[i] = d;
            return;
        }
        digits[i] = 0;
    }
}

// The part under a quantifier in a row.
pub fn under_at(table: &[usize], v: problem_table::NodeLine, digits: &[usize]) -> Elements
    requires { Fits table.now × NodeFits v × (length digits.now ≡ 4) × Within (size_in table.now) digits.now × Rest v.width digits.now }
    ensures { (result.start ≤ 2 ^ 42) × (result.stride ≤ 2 ^ 32) × ((row : ℕ) → Digits (size_in table.now) v.width row digits.now → v.kind < 2 → (x : ℕ) → under_at (size_in table.now) table.now v row x ≡ result.start + x * result.stride) }
{
    if v.kind < 2 {
        let levels = v.levels;
        let env = spread(levels, v.width, digits);
        return along(table, v.first, v.level, env);
    }
    Elements {
        start: 0,
        stride: 0,
    }
}
