// Truth of the node atoms, word by word: node after node from the last, the rows of its innermost free variable at a time. A part's
// atoms along a level are a window of the state, whose bits are the part's truth at the elements.
#![tactic(auto)]

ghost use Rattle.std.specs.Prelude.{◌≡◌, ◌&&◌, ◌||◌, ℕ, zero, ◌+◌, ◌*◌, ◌^◌, ◌<◌, ◌≤◌, eqb, length};
ghost use mathlib.Core.List.{List, Memᴰ};
ghost use Rattle.definitions.specs.Lists.{all, any, from, is_in, up_to};
ghost use Rattle.definitions.specs.Sheet.Relations.{Tuple};
ghost use Rattle.definitions.specs.Problem.Atoms.{Problem, node_start};
ghost use Rattle.definitions.specs.Problem.Actions.{with_value};
ghost use Rattle.meaning.specs.Means.{Good};
ghost use Rattle.meaning.specs.Deciding.{Knows};
ghost use Rattle.meaning.specs.Planning.{nodes_from};
ghost use Rattle.bits.specs.Table.{digit, bit, turned};
ghost use Rattle.rows.specs.Values.{value_in, Most};
ghost use Rattle.problem_table.specs.Lines.{table_length, members_in, node_line, part_at, NodeFits, RangeFits, Fits};
ghost use Rattle.step_truth.specs.Nodes.{Fillable, Knowing, NodeFilled, IsWord};

// w with bit x too, where b says so.
fn with_bit(w: u64, x: usize, b: bool) -> u64
    ensures { (k : ℕ) → k < 64 → digit result k ≡ (digit w k || (eqb k x && b)) }
{
    if b {
        return w | bits::single(x);
    }
    w
}

// The n bits of a state that stand `stride` apart, from bit `start` on, one by one.
fn gather(state: &[u64], start: usize, stride: usize, n: usize) -> u64
    requires { (start ≤ 2 ^ 42) × (stride ≤ 2 ^ 32) × (n ≤ 64) }
    ensures { (x : ℕ) → x < n → digit result x ≡ bit state.now (start + x * stride) }
{
    let mut w: u64 = 0;
    for x in 0..n {
        let b = problem_table::test(state, start + x * stride);
        w = with_bit(w, x, b);
    }
    w
}

// The same bits, side by side or all one bit where they are so.
fn window(state: &[u64], start: usize, stride: usize, n: usize) -> u64
    requires { (start ≤ 2 ^ 42) × (stride ≤ 2 ^ 32) × (n ≤ 64) }
    ensures { (x : ℕ) → x < n → digit result x ≡ bit state.now (start + x * stride) }
{
    if stride == 1 {
        return bits::cut(state, start, n);
    }
    if stride == 0 {
        return bits::turn(0, problem_table::test(state, start));
    }
    gather(state, start, stride, n)
}

// Of the elements of a level: at which of them one of the parts holds, or, where `flip` says so, all of them do.
fn parts_word(
    state: &[u64],
    table: &[usize],
    first: usize,
    many: usize,
    env: [usize; 4],
    level: usize,
    lanes: usize,
    flip: bool,
) -> u64
    requires { Fits table.now × (first + many ≤ 64) × Most env 64 × (level < 4) × (lanes ≤ 64) }
    ensures { (x : ℕ) → x < lanes → digit result x ≡ turned flip (any (λ i. turned flip (bit state.now (part_at table.now (with_value (value_in env) level x) (first + i)))) (from zero many)) }
{
    let mut acc: u64 = 0;
    for i in 0..many {
        let a = step_prove::along(table, first + i, level, env);
        let w = window(state, a.start, a.stride, lanes);
        acc |= bits::turn(w, flip);
    }
    bits::turn(acc, flip)
}

// The members of a range.
fn members_word(table: &[usize], range: usize, count: usize) -> u64
    requires { (length table.now ≡ table_length) × (range + count ≤ table_length) }
    ensures { (k : ℕ) → k < 64 → digit result k ≡ is_in k (members_in table.now range count) }
{
    let mut w: u64 = 0;
    for i in 0..count {
        w |= bits::single(table[range + i]);
    }
    w
}

// The members of a range up to which all are in w.
fn chain(w: u64, members: u64) -> u64
    ensures { (ms : List ℕ) → IsWord members ms → (z : ℕ) → z < 64 → digit result z ≡ (is_in z ms && all (digit w) (up_to ms z)) }
{
    let failed = members & !w;
    let k = bits::lowest(failed);
    members & bits::mask(k)
}

// Bit 0 tells whether a member of the range is in w.
fn meets(w: u64, members: u64) -> u64
    ensures { (ms : List ℕ) → IsWord members ms → digit result 0 ≡ any (digit w) ms }
{
    if bits::lowest(w & members) < 64 {
        return 1;
    }
    0
}

// The atoms of a `forall`, a row at a time.
fn fill_chains(state: &mut [u64], table: &[usize], v: problem_table::NodeLine, width: usize)
    requires { Fits table.now × NodeFits v × RangeFits table.now v × (v.atoms ≤ 2 ^ 32) × (v.kind ≡ 0) × (width ≤ 2 ^ 32) }
    ensures { NodeFilled table.now v width state.old state.new }
{
    let n = table[0];
    let members = members_word(table, v.range, v.count);
    let mut digits = [0usize; 4];
    for row in 0..width / n {
        let under = step_prove::under_at(table, v, &digits);
        let w = window(state, under.start, under.stride, n);
        let own = chain(w, members);
        bits::store(state, v.atoms + row * n, n, own);
        step_prove::advance(n, v.width, &mut digits);
    }
}

// The atoms of an `exists`, a row each.
fn fill_exists(state: &mut [u64], table: &[usize], v: problem_table::NodeLine, width: usize)
    requires { Fits table.now × NodeFits v × RangeFits table.now v × (v.atoms ≤ 2 ^ 32) × (v.kind ≡ 1) × (width ≤ 2 ^ 32) }
    ensures { NodeFilled table.now v width state.old state.new }
{
    let n = table[0];
    let members = members_word(table, v.range, v.count);
    let mut digits = [0usize; 4];
    for row in 0..width {
        let under = step_prove::under_at(table, v, &digits);
        let w = window(state, under.start, under.stride, n);
        let own = meets(w, members);
        bits::store(state, v.atoms + row, 1, own);
        step_prove::advance(n, v.width, &mut digits);
    }
}

// The only atom of an `and` or `or` without free variables.
fn fill_alone(state: &mut [u64], table: &[usize], v: problem_table::NodeLine)
    requires { Fits table.now × NodeFits v × (v.atoms ≤ 2 ^ 32) × (1 < v.kind) × (v.width ≡ 0) }
    ensures { NodeFilled table.now v 1 state.old state.new }
{
    let env = [0usize; 4];
    let own = parts_word(state, table, v.first, v.many, env, 0, 1, v.kind == 2);
    bits::store(state, v.atoms, 1, own);
}

// The atoms of an `and` or `or`, those of its innermost free variable at a time.
fn fill_parts(state: &mut [u64], table: &[usize], v: problem_table::NodeLine, width: usize)
    requires { Fits table.now × NodeFits v × (v.atoms ≤ 2 ^ 32) × (1 < v.kind) × (0 < v.width) × (width ≤ 2 ^ 32) }
    ensures { NodeFilled table.now v width state.old state.new }
{
    let n = table[0];
    let levels = v.levels;
    let level = levels[v.width - 1];
    let flip = v.kind == 2;
    for turn in 0..width / n {
        let row = turn * n;
        let env = rows::values_of(n, levels, v.width, row);
        let own = parts_word(state, table, v.first, v.many, env, level, n, flip);
        bits::store(state, v.atoms + row, n, own);
    }
}

// The atoms of a node, where those of the later nodes are known.
fn fill_node(state: &mut [u64], table: &[usize], node: usize, width: usize)
    requires { Fits table.now × (node < 64) × (width ≤ 2 ^ 32) }
    ensures { NodeFilled table.now (node_line table.now node) width state.old state.new }
{
    let v = problem_table::node_line(table, node);
    if v.kind == 0 {
        fill_chains(state, table, v, width);
        return;
    }
    if v.kind == 1 {
        fill_exists(state, table, v, width);
        return;
    }
    if v.width == 0 {
        fill_alone(state, table, v);
        return;
    }
    fill_parts(state, table, v, width);
}

// The atoms of the nodes from `first` up to the one before `past`, the last of them first, where those of the later nodes are known.
pub fn fill_nodes(state: &mut [u64], table: &[usize], first: usize, past: usize)
    requires { Fits table.now × (first ≤ past) × (past ≤ 64) }
    ensures { (p : Problem) (G : Good p) (F : List Tuple) → Fillable p table.now (length state.old) → past ≤ length p.node_list → (node_line table.now past).atoms ≡ node_start p past
        → Knows p F (nodes_from p G F past) (bit state.old) → Knowing p G F (nodes_from p G F first) (bit state.old) (bit state.new) }
{
    let last = problem_table::node_line(table, past);
    let mut end = last.atoms;
    for v in (first..past).rev() {
        let line = problem_table::node_line(table, v);
        let width = end.saturating_sub(line.atoms);
        fill_node(state, table, v, width);
        end = line.atoms;
    }
}
