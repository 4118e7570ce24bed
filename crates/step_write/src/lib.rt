// The steps of the nodes, read off a state that knows the truth of all their atoms: a step for each true atom, later nodes first, its
// number written to the lent steps.
#![tactic(auto)]

ghost use Rattle.std.specs.Prelude.{◌≡◌, false, List, ℕ, zero, ◌+◌, ◌-◌, ◌*◌, ◌^◌, ◌<◌, ◌≤◌, length, get_or};
ghost use Rattle.definitions.specs.Lists.{from};
ghost use Rattle.definitions.specs.Sheet.Relations.{Tuple};
ghost use Rattle.definitions.specs.Problem.Atoms.{Problem, node_start};
ghost use Rattle.meaning.specs.Means.{Good};
ghost use Rattle.bits.specs.Table.{bit};
ghost use Rattle.rows.specs.Values.{Within};
ghost use Rattle.problem_table.specs.Lines.{size_in, node_line, NodeFits, RangeFits, Fits};
ghost use Rattle.step_prove.specs.Tries.{way_at, Digits, Rest};
ghost use Rattle.step_write.specs.Steps.{Readable, Reading, Wrote, Whole, row_numbers, node_numbers, link_numbers};

// The first word from word j on and before word `past` that has a bit; `past` where none has.
fn next_word(words: &[u64], j: usize, past: usize) -> usize
    requires { (j ≤ past) × (past ≤ 2 ^ 50) }
    ensures { (j ≤ result) × (result ≤ past) × ((m : ℕ) → j ≤ m → m < result → get_or words.now m 0 ≡ 0) }
{
    for k in j..past {
        if bits::word_at(words, k) != 0 {
            return k;
        }
    }
    past
}

// A bit from bit i on, `past` at the most, before which none from bit i on is set. Words without a bit are passed over whole.
pub fn next_set(words: &[u64], i: usize, past: usize) -> usize
    requires { (i ≤ past) × (past ≤ 2 ^ 50) }
    ensures { (i ≤ result) × (result ≤ past) × ((k : ℕ) → i ≤ k → k < result → bit words.now k ≡ false) }
{
    let here = bits::cut(words, i, 64);
    if here != 0 {
        return (i + bits::lowest(here)).min(past);
    }
    let j = next_word(words, i / 64 + 1, past / 64 + 1);
    let there = bits::word_at(words, j);
    (64 * j + bits::lowest(there)).min(past)
}

// The step of one atom of an `exists`, `and` or `or`, if that is true: the first of its `tries` actions whose needs all hold.
fn write_row(
    state: &[u64],
    steps: &mut [u32],
    at: usize,
    table: &[usize],
    v: problem_table::NodeLine,
    tries: usize,
    digits: &[usize],
    row: usize,
) -> usize
    requires { Fits table.now × NodeFits v × (v.acts ≤ 2 ^ 32) × (v.atoms ≤ 2 ^ 32) × (row ≤ 2 ^ 32) × (at < 2 ^ 50) × (0 < v.kind) × (tries ≤ 2 ^ 11) × (length digits.now ≡ 4) × Within (size_in table.now) digits.now × Rest v.width digits.now × RangeFits table.now v }
    ensures { (result ≤ at + 1) × ((p : Problem) (G : Good p) (F : List Tuple) (node width : ℕ) → Reading p G F table.now node v width (bit state.now)
        → (tries ≡ (way_at table.now v row).tries) × (tries ≡ (way_at table.now v row).choices)
        → Digits (size_in table.now) v.width row digits.now → row < width
        → Wrote steps.old at (row_numbers p F node (from row 1)) steps.new result) }
{
    if problem_table::test(state, v.atoms + row) {
        let i = step_prove::first_try(state, table[0], table, v, digits);
        if i < tries {
            step_prove::put(steps, at, v.acts + row * tries + i);
            return at + 1;
        }
    }
    at
}

// The digits of a row, from scratch.
fn digits_at(n: usize, width: usize, row: usize, digits: &mut [usize])
    requires { (0 < n) × (n ≤ 64) × (width ≤ 4) × (length digits.old ≡ 4) × Within n digits.old × Rest width digits.old }
    ensures { Within n digits.new × Rest width digits.new × Digits n width row digits.new }
{
    let mut rest = row;
    for i in (0..width).rev() {
        digits[i] = rest % n;
        rest = rest / n;
    }
}

// From the digits of a row to those of a later one.
fn move_to(n: usize, width: usize, row: usize, next: usize, digits: &mut [usize])
    requires { (0 < n) × (n ≤ 64) × (width ≤ 4) × (row < 2 ^ 40) × (length digits.old ≡ 4) × Within n digits.old × Rest width digits.old }
    ensures { Within n digits.new × Rest width digits.new × (Digits n width row digits.old → Digits n width next digits.new) }
{
    if next == row + 1 {
        step_prove::advance(n, width, digits);
        return;
    }
    digits_at(n, width, next, digits);
}

// The row to look at after this one: past a true atom the next, past a false one all that are false are passed over.
fn next_row(state: &[u64], atoms: usize, row: usize, width: usize) -> usize
    requires { (atoms ≤ 2 ^ 32) × (row < width) × (width ≤ 2 ^ 32) }
    ensures { (row < result) × (result ≤ width) × ((i : ℕ) → row < i → i < result → bit state.now (atoms + i) ≡ false) }
{
    if problem_table::test(state, atoms + row) {
        return row + 1;
    }
    next_set(state, atoms + row + 1, atoms + width) - atoms
}

// The steps of the rows of an `exists`, `and` or `or` from row `start` on and before row `end`.
fn write_rows(
    state: &[u64],
    steps: &mut [u32],
    at: usize,
    table: &[usize],
    v: problem_table::NodeLine,
    start: usize,
    end: usize,
) -> usize
    requires { Fits table.now × NodeFits v × (v.acts ≤ 2 ^ 32) × (v.atoms ≤ 2 ^ 32) × (0 < v.kind) × (start ≤ end) × (end ≤ 2 ^ 32) × (at < 2 ^ 49) × RangeFits table.now v }
    ensures { (result ≤ at + end) × ((p : Problem) (G : Good p) (F : List Tuple) (node width : ℕ) → Reading p G F table.now node v width (bit state.now) → end ≤ width
        → Wrote steps.old at (row_numbers p F node (from start (end - start))) steps.new result) }
{
    let n = table[0];
    let m = step_prove::tries(v.kind, v.many, v.count);
    let mut digits = [0usize; 4];
    digits_at(n, v.width, start, &mut digits);
    let mut k = at;
    let mut row = start;
    // no count: a row may be far behind the one before it
    while row < end {
        k = write_row(state, steps, k, table, v, m, &digits, row);
        let next = next_row(state, v.atoms, row, end);
        move_to(n, v.width, row, next, &mut digits);
        row = next;
    }
    k
}

// The step of one atom of a `forall`, if that is true.
fn write_link(state: &[u64], steps: &mut [u32], at: usize, own: usize, number: usize) -> usize
    requires { at < 2 ^ 50 }
    ensures { (result ≤ at + 1) × (number < 2 ^ 32 → Wrote steps.old at (link_numbers (bit state.now own) number) steps.new result) }
{
    if problem_table::test(state, own) {
        step_prove::put(steps, at, number);
        return at + 1;
    }
    at
}

// The steps of a row of a `forall`, whose atoms start at j and whose actions at `action`: member after member of its range.
fn write_chain(
    state: &[u64],
    steps: &mut [u32],
    at: usize,
    table: &[usize],
    v: problem_table::NodeLine,
    j: usize,
    action: usize,
) -> usize
    requires { Fits table.now × RangeFits table.now v × (v.count ≤ 64) × (v.atoms ≤ 2 ^ 32) × (j ≤ 2 ^ 32) × (action ≤ 2 ^ 40) × (at + 64 ≤ 2 ^ 50) }
    ensures { (result ≤ at + v.count) × ((p : Problem) (G : Good p) (F : List Tuple) (node width row : ℕ) → Reading p G F table.now node v width (bit state.now) → v.kind ≡ 0
        → j ≡ row * size_in table.now → action ≡ v.acts + row * v.count → j + size_in table.now ≤ width
        → Wrote steps.old at (row_numbers p F node (from j (size_in table.now))) steps.new result) }
{
    let mut k = at;
    for i in 0..v.count {
        let z = table[v.range + i];
        k = write_link(state, steps, k, v.atoms + (j + z), action + i);
    }
    k
}

// The steps of a `forall` from atom `start` on and before atom `end`, both at the start of a row. A range of more than n members is no
// problem's, and nothing is written for it.
fn write_chains(
    state: &[u64],
    steps: &mut [u32],
    at: usize,
    table: &[usize],
    v: problem_table::NodeLine,
    start: usize,
    end: usize,
) -> usize
    requires { Fits table.now × NodeFits v × (v.acts ≤ 2 ^ 32) × (v.atoms ≤ 2 ^ 32) × (v.kind ≡ 0) × (start ≤ end) × (end ≤ 2 ^ 32) × (at < 2 ^ 49) × RangeFits table.now v }
    ensures { (result ≤ at + end) × ((p : Problem) (G : Good p) (F : List Tuple) (node width : ℕ) → Reading p G F table.now node v width (bit state.now) → end ≤ width
        → Whole (size_in table.now) start → Whole (size_in table.now) end
        → Wrote steps.old at (row_numbers p F node (from start (end - start))) steps.new result) }
{
    let n = table[0];
    if n < v.count {
        return at;
    }
    let mut k = at;
    for row in start / n..end / n {
        k = write_chain(state, steps, k, table, v, row * n, v.acts + row * v.count);
    }
    k
}

// The steps of the rows of a node from row `start` on and before row `end`: of a `forall` these are the starts of a row of its own.
pub fn write_node(
    state: &[u64],
    steps: &mut [u32],
    at: usize,
    table: &[usize],
    node: usize,
    start: usize,
    end: usize,
) -> usize
    requires { Fits table.now × (node < 64) × (start ≤ end) × (end ≤ 2 ^ 32) × (at < 2 ^ 49) }
    ensures { (result ≤ at + end) × ((p : Problem) (G : Good p) (F : List Tuple) (width : ℕ) → Reading p G F table.now node (node_line table.now node) width (bit state.now) → end ≤ width
        → ((node_line table.now node).kind ≡ 0 → Whole (size_in table.now) start × Whole (size_in table.now) end)
        → Wrote steps.old at (row_numbers p F node (from start (end - start))) steps.new result) }
{
    let v = problem_table::node_line(table, node);
    if v.kind == 0 {
        return write_chains(state, steps, at, table, v, start, end);
    }
    write_rows(state, steps, at, table, v, start, end)
}

// The steps of the nodes before `past`, the last of them first.
pub fn write_nodes(
    state: &[u64],
    steps: &mut [u32],
    at: usize,
    table: &[usize],
    past: usize,
) -> usize
    requires { Fits table.now × (past ≤ 64) × (at ≤ 2 ^ 48) }
    ensures { (result ≤ at + 64 * 2 ^ 32) × ((p : Problem) (G : Good p) (F : List Tuple) → Readable p G F table.now (bit state.now) → past ≤ length p.node_list → (node_line table.now past).atoms ≡ node_start p past
        → Wrote steps.old at (node_numbers p F past) steps.new result) }
{
    let last = problem_table::node_line(table, past);
    let mut end = last.atoms;
    let mut k = at;
    for v in (0..past).rev() {
        let line = problem_table::node_line(table, v);
        let width = end.saturating_sub(line.atoms);
        k = write_node(state, steps, k, table, v, 0, width);
        end = line.atoms;
    }
    k
}
