// The grounded problem by number: a table of numbers, lent as a slice, from which come the numbers of the atoms that an action needs,
// adds and removes. Nothing is listed, and an action costs its own parts.
#![tactic(auto)]

ghost use Rattle.std.specs.Prelude.{◌≡◌, false, [], ◌∷◌, map, suc, ◌+◌, ◌-◌, ◌*◌, ◌/◌, ◌^◌, ◌<◌, ◌≤◌, min, ltb, length, take as «take_of», if◌then◌else◌};
ghost use Rattle.definitions.specs.Lists.{all, option, from, below, before};
ghost use Rattle.definitions.specs.Reply.Outcome.{written};
ghost use Rattle.bits.specs.Table.{bit, Words};
ghost use Rattle.rows.specs.Values.{value_in, Most};
ghost use Rattle.problem_table.specs.Lines.{table_length, ranges_place, size_in, members_in, relation_line, last_line, has_every, every_in, node_line, part_line, part_number, part_at, NodeFits, RangeFits, PlacesFit, Fits};
ghost use Rattle.problem_table.specs.Numbers.{is_whole, set_row, free_numbers, set_needs, and_needs, or_needs, exists_needs, forall_needs, goal_needs, under_at, set_removes, round_removes, next_mark, finish_in, ActFits, need_numbers, add_numbers, remove_numbers, changed, Held};

// The numbers of a table: n, how many relations and how many nodes there are; a line for each relation and one past the last; a
// line for each node and one past the last; a line for each part, and the root's last; the range of each sort, that of all elements
// first.
pub const RELATION_AT: usize = 3;

pub const RELATION_LINE: usize = 9;

pub const NODE_AT: usize = 174;

pub const NODE_LINE: usize = 13;

pub const PART_AT: usize = 1019;

pub const PART_LINE: usize = 5;

pub const ROOT_AT: usize = 1339;

pub const RANGE_AT: usize = 1344;

pub const RANGE_LINE: usize = 64;

pub const TABLE: usize = 1920;

// A relation: where its set actions, its tuples, its not-tuples and its free atoms (of an `every` line's its marks) start; its kind
// (0 static, 1 plain, 2 Fun, 3 PFun, 4 Inj, 5 PInj, 6 that of an `every` line); of a function kind where the ranges of its first and of its second place start in the table, and how many
// elements these have (0 for other kinds).
#[derive(Clone, Copy)]
pub struct RelationLine {
    pub sets: usize,
    pub tuples: usize,
    pub nots: usize,
    pub free: usize,
    pub kind: usize,
    pub firsts: usize,
    pub first_count: usize,
    pub seconds: usize,
    pub second_count: usize,
}

// A node: where its actions and its atoms start; its kind (0 forall, 1 exists, 2 and, 3 or), a quantifier's level, its first
// part, how many there are, and its free levels, outermost first, of which the first `width` count; where a quantifier's range
// starts in the table, and how many elements it has.
#[derive(Clone, Copy)]
pub struct NodeLine {
    pub acts: usize,
    pub atoms: usize,
    pub kind: usize,
    pub level: usize,
    pub first: usize,
    pub many: usize,
    pub width: usize,
    pub levels: [usize; 4],
    pub range: usize,
    pub count: usize,
}

// A part: its atom's number where all values are 0, and by how much that grows with the value of each level.
#[derive(Clone, Copy)]
pub struct PartLine {
    pub start: usize,
    pub weights: [usize; 4],
}

// An action and its details: a tuple's relation and row; a node, a row of values of its free variables, and the part, the element
// or the z that is chosen.
#[derive(Clone, Copy)]
pub struct TupleAct {
    pub relation: usize,
    pub row: usize,
}

#[derive(Clone, Copy)]
pub struct RowAct {
    pub node: usize,
    pub row: usize,
}

#[derive(Clone, Copy)]
pub struct ChoiceAct {
    pub node: usize,
    pub row: usize,
    pub choice: usize,
}

#[derive(Clone, Copy)]
pub enum Act {
    Set(TupleAct),
    Begin,
    And(RowAct),
    Or(ChoiceAct),
    Exists(ChoiceAct),
    Forall(ChoiceAct),
    Goal,
    RoundEnd,
    MarkIn(TupleAct),
    MarkOut(TupleAct),
    Nothing,
}

// The line of a relation.
pub fn relation_line(table: &[usize], r: usize) -> RelationLine
    requires { (length table.now ≡ table_length) × (r < 19) }
    ensures { result ≡ relation_line table.now r }
{
    let at = RELATION_AT + RELATION_LINE * r;
    RelationLine {
        sets: table[at],
        tuples: table[at + 1],
        nots: table[at + 2],
        free: table[at + 3],
        kind: table[at + 4],
        firsts: table[at + 5],
        first_count: table[at + 6],
        seconds: table[at + 7],
        second_count: table[at + 8],
    }
}

// Every tuple of the relation may be set: it is of no function kind, or of one whose places have no types.
pub fn is_whole(line: RelationLine) -> bool
    ensures { result ≡ is_whole line }
{
    !(2..6).contains(&line.kind) || (line.firsts == RANGE_AT && line.seconds == RANGE_AT)
}

// The line of the last relation.
pub fn last_line(table: &[usize]) -> RelationLine
    requires { Fits table.now }
    ensures { result ≡ last_line table.now }
{
    let count = table[1];
    if count == 0 {
        return relation_line(table, 0);
    }
    relation_line(table, count - 1)
}

// Whether the last relation is that of an `every` line.
#[tactic(auto, unfolding(crate::specs::Lines::has_every))]
pub fn has_every(table: &[usize]) -> bool
    requires { Fits table.now }
    ensures { result ≡ has_every table.now }
{
    table[1] != 0 && last_line(table).kind == 6
}

// How many tuples the relation of the `every` line has; 0 where there is no such line.
pub fn every_tuples(table: &[usize]) -> usize
    requires { Fits table.now }
    ensures { result ≡ every_in table.now }
{
    if has_every(table) {
        let line = last_line(table);
        return line.nots.saturating_sub(line.tuples);
    }
    0
}

// The action that ends a round: round-end where there is an `every` line, prove-goal where there is none.
pub fn finish_act(table: &[usize]) -> Act
    requires { Fits table.now }
    ensures { result ≡ finish_in table.now }
{
    if has_every(table) {
        return Act::RoundEnd;
    }
    Act::Goal
}

// The row of the tuple that the set action of offset `off` sets.
pub fn set_row(table: &[usize], line: RelationLine, off: usize) -> usize
    requires { Fits table.now × PlacesFit table.now line × (is_whole line ≡ false → off < line.first_count * line.second_count) }
    ensures { result ≡ set_row table.now line off }
{
    if is_whole(line) {
        return off;
    }
    let count = line.second_count;
    table[line.firsts + off / count] * table[0] + table[line.seconds + off % count]
}

// The line of a node.
pub fn node_line(table: &[usize], v: usize) -> NodeLine
    requires { (length table.now ≡ table_length) × (v < 65) }
    ensures { result ≡ node_line table.now v }
{
    let at = NODE_AT + NODE_LINE * v;
    let levels = [table[at + 7], table[at + 8], table[at + 9], table[at + 10]];
    NodeLine {
        acts: table[at],
        atoms: table[at + 1],
        kind: table[at + 2],
        level: table[at + 3],
        first: table[at + 4],
        many: table[at + 5],
        width: table[at + 6],
        levels,
        range: table[at + 11],
        count: table[at + 12],
    }
}

// The line of a part.
pub fn part_line(table: &[usize], i: usize) -> PartLine
    requires { (length table.now ≡ table_length) × (i < 65) }
    ensures { result ≡ part_line table.now i }
{
    let at = PART_AT + PART_LINE * i;
    let weights = [table[at + 1], table[at + 2], table[at + 3], table[at + 4]];
    PartLine {
        start: table[at],
        weights,
    }
}

// The number of a part's atom at the values of levels.
pub fn part_number(q: PartLine, env: [usize; 4]) -> usize
    requires { (q.start ≤ 2 ^ 32) × Most q.weights (2 ^ 32) × Most env 64 }
    ensures { result ≡ part_number (value_in env) q }
{
    let w = q.weights;
    q.start + (env[0] * w[0] + (env[1] * w[1] + (env[2] * w[2] + env[3] * w[3])))
}

// Bit i; past the end none is set.
pub fn test(words: &[u64], i: usize) -> bool
    ensures { result ≡ bit words.now i }
{
    i / 64 < words.len() && bits::get(words, i)
}

// The first k words of src become those of dst. (That a word has 64 bits is known where one is read.)
pub fn copy(dst: &mut [u64], src: &[u64], k: usize)
    requires { (k ≤ length dst.old) × (k ≤ length src.now) }
    ensures { (dst.new ≡ written («take_of» k src.now) dst.old) × (0 < k → Words src.now) }
{
    for i in 0..k {
        dst[i] = src[i];
    }
}

// Whether the atom of a part holds at the values of levels.
pub fn part_holds(state: &[u64], table: &[usize], i: usize, env: [usize; 4]) -> bool
    requires { Fits table.now × (i < 65) × Most env 64 }
    ensures { result ≡ bit state.now (part_at table.now (value_in env) i) }
{
    let q = part_line(table, i);
    let k = part_number(q, env);
    test(state, k)
}

// Whether the free atoms that a tuple uses up hold.
fn free_hold(state: &[u64], n: usize, kind: usize, free: usize, row: usize) -> bool
    requires { (0 < n) × (n ≤ 64) × (free ≤ 2 ^ 32) × (row ≤ 2 ^ 32) }
    ensures { result ≡ all (bit state.now) (free_numbers n kind free row) }
{
    kind < 2 || (test(state, free + row / n) && (kind < 4 || test(state, free + n + row % n)))
}

// Whether all that setting a tuple needs holds.
fn may_set(state: &[u64], n: usize, k: RelationLine, row: usize) -> bool
    requires { (0 < n) × (n ≤ 64) × (k.nots ≤ 2 ^ 32) × (k.free ≤ 2 ^ 32) × (row ≤ 2 ^ 32) }
    ensures { result ≡ all (bit state.now) (set_needs n k row) }
{
    test(state, 0) && test(state, k.nots + row) && free_hold(state, n, k.kind, k.free, row)
}

// Whether the atoms of `many` parts hold, from part `first` on.
pub fn parts_hold(
    state: &[u64],
    table: &[usize],
    first: usize,
    many: usize,
    env: [usize; 4],
) -> bool
    requires { Fits table.now × (first + many ≤ 64) × Most env 64 }
    ensures { result ≡ all (bit state.now) (map (part_at table.now (value_in env)) (from first many)) }
{
    for k in 0..many {
        if !part_holds(state, table, first + k, env) {
            return false;
        }
    }
    true
}

// Whether all that proving an `and` needs holds.
fn may_and(state: &[u64], n: usize, table: &[usize], v: NodeLine, row: usize) -> bool
    requires { (0 < n) × (n ≤ 64) × Fits table.now × NodeFits v }
    ensures { result ≡ all (bit state.now) (and_needs n table.now v row) }
{
    let levels = v.levels;
    let env = rows::values_of(n, levels, v.width, row);
    test(state, 1) && parts_hold(state, table, v.first, v.many, env)
}

// Whether all that proving an `or` by a part needs holds.
fn may_or(state: &[u64], n: usize, table: &[usize], v: NodeLine, row: usize, i: usize) -> bool
    requires { (0 < n) × (n ≤ 64) × Fits table.now × NodeFits v × (i < v.many) }
    ensures { result ≡ all (bit state.now) (or_needs n table.now v row i) }
{
    let levels = v.levels;
    let env = rows::values_of(n, levels, v.width, row);
    test(state, 1) && part_holds(state, table, v.first + i, env)
}

// Whether the part under a quantifier holds at an element.
pub fn under_holds(
    state: &[u64],
    n: usize,
    table: &[usize],
    v: NodeLine,
    row: usize,
    x: usize,
) -> bool
    requires { (0 < n) × (n ≤ 64) × Fits table.now × NodeFits v × (x < n) }
    ensures { result ≡ bit state.now (under_at n table.now v row x) }
{
    let levels = v.levels;
    let level = v.level;
    let env = rows::values_with(n, levels, v.width, row, level, x);
    part_holds(state, table, v.first, env)
}

// Whether all that proving an `exists` by an element needs holds.
fn may_exists(state: &[u64], n: usize, table: &[usize], v: NodeLine, row: usize, x: usize) -> bool
    requires { (0 < n) × (n ≤ 64) × Fits table.now × NodeFits v × (x < n) }
    ensures { result ≡ all (bit state.now) (exists_needs n table.now v row x) }
{
    test(state, 1) && under_holds(state, n, table, v, row, x)
}

// y and 1 where y is below z; what was found so far where it is not.
fn latest(found: usize, y: usize, z: usize) -> usize
    ensures { result ≡ (if ltb y z then suc y else found) }
{
    if y < z {
        return y + 1;
    }
    found
}

// The element before z in a range of the table, and 1; 0 where there is none. In the range of all elements that is z itself.
pub fn element_before(table: &[usize], range: usize, count: usize, z: usize) -> usize
    requires { (length table.now ≡ table_length) × (range + count ≤ table_length) × (z < size_in table.now) × (range ≡ ranges_place → members_in table.now range count ≡ below (size_in table.now)) }
    ensures { (result ≡ option (before (members_in table.now range count) z) 0 suc) × (result ≤ z) }
{
    if range == RANGE_AT {
        return z;
    }
    let mut found: usize = 0;
    for y in &table[range..range + count] {
        found = latest(found, *y, z);
    }
    found
}

// Whether all that proving a `forall` up to z needs holds.
fn may_forall(state: &[u64], n: usize, table: &[usize], v: NodeLine, row: usize, z: usize) -> bool
    requires { (0 < n) × (n ≤ 64) × Fits table.now × NodeFits v × RangeFits table.now v × (n ≡ size_in table.now) × (v.atoms ≤ 2 ^ 32) × (row ≤ 2 ^ 32) × (z < n) }
    ensures { result ≡ all (bit state.now) (forall_needs n table.now v row z) }
{
    if test(state, 1) && under_holds(state, n, table, v, row, z) {
        let y = element_before(table, v.range, v.count, z);
        return y == 0 || test(state, v.atoms + (row * n + (y - 1)));
    }
    false
}

// Whether the root holds.
fn may_goal(state: &[u64], table: &[usize]) -> bool
    requires { Fits table.now }
    ensures { result ≡ all (bit state.now) (goal_needs table.now) }
{
    let env = [0usize; 4];
    part_holds(state, table, 64, env)
}

// Whether a mark and the atom that it is to change hold.
fn may_mark(state: &[u64], mark: usize, old: usize) -> bool
    ensures { result ≡ all (bit state.now) (mark ∷ old ∷ []) }
{
    test(state, mark) && test(state, old)
}

// Whether all that an action needs holds.
pub fn may_take(state: &[u64], table: &[usize], a: Act) -> bool
    requires fits { Fits table.now }
    requires act_fits { ActFits table.now a }
    ensures { result ≡ all (bit state.now) (need_numbers table.now a) }
{
    let n = table[0];
    match a {
        Act::Set(x) => may_set(state, n, relation_line(table, x.relation), x.row),
        Act::Begin => test(state, 0),
        Act::And(x) => may_and(state, n, table, node_line(table, x.node), x.row),
        Act::Or(x) => may_or(state, n, table, node_line(table, x.node), x.row, x.choice),
        Act::Exists(x) => may_exists(state, n, table, node_line(table, x.node), x.row, x.choice),
        Act::Forall(x) => may_forall(state, n, table, node_line(table, x.node), x.row, x.choice),
        Act::Goal => may_goal(state, table),
        Act::RoundEnd => may_goal(state, table),
        Act::MarkIn(x) => {
            let k = relation_line(table, x.relation);
            may_mark(state, k.free + x.row, k.nots + x.row)
        }
        Act::MarkOut(x) => {
            let k = relation_line(table, x.relation);
            may_mark(state, k.free + x.row, k.tuples + x.row)
        }
        Act::Nothing => true,
    }
}

// Bit i is cleared; past the end none is set. (No flag makes one function of this and the next: clearing asks nothing of the table's length.)
fn clear(words: &mut [u64], i: usize)
    ensures { bit words.new ≡ changed (bit words.old) (i ∷ []) [] }
{
    if i / 64 < words.len() {
        bits::clear(words, i);
    }
}

// Bit i is set, where it is in the table.
pub fn raise(words: &mut [u64], i: usize)
    ensures { i / 64 < length words.old → bit words.new ≡ changed (bit words.old) [] (i ∷ []) }
{
    if i / 64 < words.len() {
        bits::set(words, i);
    }
}

// The free atoms that a tuple uses up are cleared.
fn free_clear(state: &mut [u64], n: usize, kind: usize, free: usize, row: usize)
    requires { (0 < n) × (n ≤ 64) × (free ≤ 2 ^ 32) × (row ≤ 2 ^ 32) }
    ensures { bit state.new ≡ changed (bit state.old) (free_numbers n kind free row) [] }
{
    if kind < 2 {
        return;
    }
    clear(state, free + row / n);
    if kind < 4 {
        return;
    }
    clear(state, free + n + row % n);
}

// A tuple is set.
fn take_set(state: &mut [u64], n: usize, k: RelationLine, row: usize)
    requires { (0 < n) × (n ≤ 64) × (k.tuples ≤ 2 ^ 32) × (k.nots ≤ 2 ^ 32) × (k.free ≤ 2 ^ 32) × (row ≤ 2 ^ 32) }
    ensures { (k.tuples + row) / 64 < length state.old → bit state.new ≡ changed (bit state.old) (set_removes n k row) ((k.tuples + row) ∷ []) }
{
    clear(state, k.nots + row);
    free_clear(state, n, k.kind, k.free, row);
    raise(state, k.tuples + row);
}

// How many of the first `to` bits there are in so many words.
fn inside(words: &[u64], to: usize) -> usize
    ensures { result ≡ min to (64 * length words.now) }
{
    if to / 64 < words.len() {
        return to;
    }
    64 * words.len()
}

// The bits from `start` on before `to` are cleared, a word at a time; past the end none is set.
fn clear_run(words: &mut [u64], start: usize, to: usize)
    requires { (start ≤ 2 ^ 32) × (to ≤ 2 ^ 32) }
    ensures { bit words.new ≡ changed (bit words.old) (from start (to - start)) [] }
{
    let end = inside(words, to);
    for k in (start..end).step_by(64) {
        bits::store(words, k, (end - k).min(64), 0);
    }
}

// A round ends: the proof phase and the atoms of all nodes go, the first mark comes.
fn end_round(state: &mut [u64], table: &[usize])
    requires { Fits table.now }
    ensures { (last_line table.now).free / 64 < length state.old
        → bit state.new ≡ changed (bit state.old) (round_removes table.now) ((last_line table.now).free ∷ []) }
{
    let start = node_line(table, 0).atoms;
    let to = node_line(table, table[2]).atoms;
    let mark = last_line(table).free;
    clear(state, 1);
    clear_run(state, start, to);
    raise(state, mark);
}

// A mark goes and one of a tuple's two atoms, and the other one comes and what is next.
fn take_mark(state: &mut [u64], mark: usize, old: usize, new: usize, next: usize)
    ensures { Held (new ∷ next ∷ []) (length state.old) → bit state.new ≡ changed (bit state.old) (mark ∷ old ∷ []) (new ∷ next ∷ []) }
{
    clear(state, mark);
    clear(state, old);
    raise(state, new);
    raise(state, next);
}

// The mark after that of a row, and the goal past the last one.
fn next_mark(k: RelationLine, row: usize) -> usize
    requires { (k.tuples ≤ 2 ^ 32) × (k.free ≤ 2 ^ 32) × (row ≤ 2 ^ 32) }
    ensures { result ≡ next_mark k row }
{
    if k.tuples + row + 1 < k.nots {
        return k.free + row + 1;
    }
    2
}

// The guess ends, and the proof phase begins.
fn begin(state: &mut [u64])
    ensures { 1 / 64 < length state.old → bit state.new ≡ changed (bit state.old) (0 ∷ []) (1 ∷ []) }
{
    clear(state, 0);
    raise(state, 1);
}

// An atom of a node comes.
fn raise_node(state: &mut [u64], table: &[usize], node: usize, at: usize)
    requires { Fits table.now × (node < 64) × (at ≤ 2 ^ 40) }
    ensures { ((node_line table.now node).atoms + at) / 64 < length state.old
        → bit state.new ≡ changed (bit state.old) [] (((node_line table.now node).atoms + at) ∷ []) }
{
    let v = node_line(table, node);
    raise(state, v.atoms + at);
}

// The tuple at the mark comes, and the proof phase.
fn mark_in(state: &mut [u64], k: RelationLine, row: usize)
    requires { (k.tuples ≤ 2 ^ 32) × (k.nots ≤ 2 ^ 32) × (k.free ≤ 2 ^ 32) × (row ≤ 2 ^ 32) }
    ensures { Held ((k.tuples + row) ∷ 1 ∷ []) (length state.old)
        → bit state.new ≡ changed (bit state.old) ((k.free + row) ∷ (k.nots + row) ∷ []) ((k.tuples + row) ∷ 1 ∷ []) }
{
    take_mark(state, k.free + row, k.nots + row, k.tuples + row, 1);
}

// The tuple at the mark goes, and the mark moves on.
fn mark_out(state: &mut [u64], k: RelationLine, row: usize)
    requires { (k.tuples ≤ 2 ^ 32) × (k.nots ≤ 2 ^ 32) × (k.free ≤ 2 ^ 32) × (row ≤ 2 ^ 32) }
    ensures { Held ((k.nots + row) ∷ next_mark k row ∷ []) (length state.old)
        → bit state.new ≡ changed (bit state.old) ((k.free + row) ∷ (k.tuples + row) ∷ []) ((k.nots + row) ∷ next_mark k row ∷ []) }
{
    take_mark(
        state,
        k.free + row,
        k.tuples + row,
        k.nots + row,
        next_mark(k, row),
    );
}

// An action is taken: what it removes goes, what it adds comes.
pub fn take(state: &mut [u64], table: &[usize], a: Act)
    requires fits { Fits table.now }
    requires act_fits { ActFits table.now a }
    ensures { Held (add_numbers table.now a) (length state.old) → bit state.new ≡ changed (bit state.old) (remove_numbers table.now a) (add_numbers table.now a) }
{
    let n = table[0];
    match a {
        Act::Set(x) => take_set(state, n, relation_line(table, x.relation), x.row),
        Act::Begin => begin(state),
        Act::And(x) => raise_node(state, table, x.node, x.row),
        Act::Or(x) => raise_node(state, table, x.node, x.row),
        Act::Exists(x) => raise_node(state, table, x.node, x.row),
        Act::Forall(x) => raise_node(state, table, x.node, x.row * n + x.choice),
        Act::Goal => raise(state, 2),
        Act::RoundEnd => end_round(state, table),
        Act::MarkIn(x) => mark_in(state, relation_line(table, x.relation), x.row),
        Act::MarkOut(x) => mark_out(state, relation_line(table, x.relation), x.row),
        Act::Nothing => {}
    }
}
