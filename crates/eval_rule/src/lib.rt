// Whether the rule is true of picks: each node is searched element by element and part by part, and left at the first witness or the
// first failure. Nothing is written; facts and picks are lent as bits.
#![tactic(auto)]

ghost use Rattle.std.specs.Prelude.{◌≡◌, ◌+◌, ◌*◌, ◌^◌, ◌<◌, ◌≤◌, length, get_or};
ghost use Rattle.definitions.specs.Sheet.Relations.{built_in_holds};
ghost use Rattle.definitions.specs.Problem.Tree.{Tree};
ghost use Rattle.bits.specs.Table.{digit};
ghost use Rattle.rows.specs.Values.{value_in, Within};
ghost use Rattle.eval_rule.specs.Lines.{lines_length, node_in, part_in, line_in, literal_at, leaf_at, value_of, fixed_in, known, SoundLines};
ghost use Rattle.eval_rule.specs.Says.{Truth, Says, Asked, node_of, no_values};

// The numbers of a node's line and of a part's.
pub const NODE_LINE: usize = 7;

pub const PART_LINE: usize = 7;

// Where the lines of parts begin, the root's line, and the ranges of the sorts, 64 numbers for each; how many numbers there are in all.
pub const PART_AT: usize = 448;

pub const ROOT_AT: usize = 896;

pub const RANGE_AT: usize = 903;

pub const RANGE_LINE: usize = 64;

pub const LINES: usize = 1479;

// A node: its quantifier (0 forall, 1 exists, 2 none) and that one's level; what joins the parts under it (0 and, 1 or); the first of
// these parts and how many there are; where the elements stand that the quantifier goes over, and how many these are. An `and` or `or`
// right under a quantifier is one with it, so that its parts are the quantifier's own. A quantifier takes a turn for each element. A node
// without one takes a single turn, and so does a quantifier whose level is not free in the parts.
#[derive(Clone, Copy)]
pub struct NodeAt {
    pub kind: usize,
    pub level: usize,
    pub join: usize,
    pub first: usize,
    pub many: usize,
    pub range: usize,
    pub count: usize,
}

// A part: node `which` (tag 0), or a tuple (1) or not-tuple (2) of a built-in relation (`which` is its number), of a `rel` (5), of a
// `choose` (6), or of the `every` relation where that has value `which` - 7: its tuple k is in where digit k of the value is 1.
#[derive(Clone, Copy)]
pub struct PartAt {
    pub tag: usize,
    pub which: usize,
}

// The line of a node.
pub fn node_at(lines: &[usize], v: usize) -> NodeAt
    requires { (length lines.now ≡ lines_length) × (v < 64) }
    ensures { result ≡ node_in lines.now v }
{
    let at = NODE_LINE * v;
    NodeAt {
        kind: lines[at],
        level: lines[at + 1],
        join: lines[at + 2],
        first: lines[at + 3],
        many: lines[at + 4],
        range: lines[at + 5],
        count: lines[at + 6],
    }
}

// What a part is.
pub fn part_at(lines: &[usize], i: usize) -> PartAt
    requires { (length lines.now ≡ lines_length) × (i < 65) }
    ensures { result ≡ part_in lines.now i }
{
    let at = PART_AT + PART_LINE * i;
    PartAt {
        tag: lines[at],
        which: lines[at + 1],
    }
}

// Where a literal's tuples start, and by how much a tuple's number grows with the value of each level.
pub fn line_at(lines: &[usize], i: usize) -> problem_table::PartLine
    requires { (length lines.now ≡ lines_length) × (i < 65) }
    ensures { result ≡ line_in lines.now i }
{
    let at = PART_AT + PART_LINE * i;
    let weights = [lines[at + 3], lines[at + 4], lines[at + 5], lines[at + 6]];
    problem_table::PartLine {
        start: lines[at + 2],
        weights,
    }
}

// What a built-in relation says of x, and of y where it has two places.
fn built_in_holds(n: usize, r: usize, x: usize, y: usize) -> bool
    requires { (r < 5) × (x ≤ 2 ^ 48) × (y ≤ 2 ^ 48) }
    ensures { result ≡ built_in_holds n r x y }
{
    match r {
        0 => x == y,
        1 => x < y,
        2 => y == x + 1,
        3 => x == 0,
        _ => x + 1 == n,
    }
}

// Whether digit k of a value is 1; a value has no digit past the 63rd.
fn value_has(value: usize, k: usize) -> bool
    ensures { result ≡ digit value k }
{
    k < 64 && (value >> k) % 2 == 1
}

// Whether tuple k holds: a built-in one by its row, one of a value by its digit, another by its bit.
fn literal_holds(facts: &[u64], picks: &[u64], n: usize, which: usize, k: usize) -> bool
    requires { (0 < n) × (k ≤ 2 ^ 48) }
    ensures { result ≡ literal_at facts.now picks.now n which k }
{
    match which {
        0..=2 => built_in_holds(n, which, k / n, k % n),
        3 | 4 => built_in_holds(n, which, k, 0),
        5 => problem_table::test(facts, k),
        6 => problem_table::test(picks, k),
        _ => value_has(which - 7, k),
    }
}

// Whether a literal holds at the values of levels.
pub fn leaf_holds(
    lines: &[usize],
    facts: &[u64],
    picks: &[u64],
    n: usize,
    i: usize,
    q: PartAt,
    env: [usize; 4],
) -> bool
    requires { SoundLines n lines.now × (i < 65) × Within n env }
    ensures { result ≡ leaf_at facts.now picks.now n (value_in env) q (line_in lines.now i) }
{
    let line = line_at(lines, i);
    let k = problem_table::part_number(line, env);
    let b = literal_holds(facts, picks, n, q.which, k);
    b == (q.tag == 1)
}

// What stands at a node's level in a turn: under a quantifier the element at a place, else what stood there.
pub fn value_at(lines: &[usize], kind: usize, place: usize, old: usize) -> usize
    requires { place < length lines.now }
    ensures { result ≡ value_of kind (get_or lines.now place 0) old }
{
    if kind < 2 {
        return lines[place];
    }
    old
}

// Whether a part is the same at every value of a level.
pub fn is_fixed(lines: &[usize], i: usize, level: usize) -> bool
    requires { (length lines.now ≡ lines_length) × (i < 65) × (level < 4) }
    ensures { result ≡ fixed_in lines.now i level }
{
    let at = PART_AT + PART_LINE * i + 3;
    lines[at + level] == 0
}

// Whether a part's truth is known from a turn before: it is fixed and one of the first `seen`.
fn is_known(fixed: bool, i: usize, seen: usize) -> bool
    ensures { result ≡ known fixed i seen }
{
    fixed && i < seen
}

// Whether node v is true at the values of levels. An element is left at the first part that decides it, and the node at the first
// element that does. A part that is the same at every element is asked once: where it decides one element it decides all, and else,
// as one of the first `seen` parts, it is what decides none.
pub fn node_holds(
    lines: &[usize],
    facts: &[u64],
    picks: &[u64],
    n: usize,
    v: usize,
    env: [usize; 4],
) -> bool
    requires { SoundLines n lines.now × (v < 64) × Within n env }
    ensures { (H : Truth) (root : Tree) → Asked H root n lines.now (leaf_at facts.now picks.now n) v
        → result ≡ H (value_in env) (node_of root v) }
{
    let x = node_at(lines, v);
    let kind = x.kind;
    let level = x.level;
    let first = x.first;
    let many = x.many;
    let range = x.range;
    let turns = x.count;
    let sought = kind == 1;
    let joins = x.join == 1;
    let decisive = joins == sought;
    let old = env[level];
    let mut values = env;
    let mut answer = !sought;
    let mut seen: usize = 0;
    'elements: for turn in 0..turns {
        values[level] = value_at(lines, kind, range + turn, old);
        'parts: for i in 0..many {
            let fixed = is_fixed(lines, first + i, level);
            let q = part_at(lines, first + i);
            let b = if is_known(fixed, i, seen) {
                !joins
            } else if q.tag == 0 {
                node_holds(lines, facts, picks, n, q.which, values)
            } else {
                leaf_holds(lines, facts, picks, n, first + i, q, values)
            };
            if b == joins {
                if decisive {
                    answer = sought;
                    break 'elements;
                }
                if fixed {
                    break 'elements;
                }
                continue 'elements;
            }
            seen = seen.max(i + 1);
        }
        if decisive {
            continue 'elements;
        }
        answer = sought;
        break 'elements;
    }
    answer
}

// Whether the rule is true.
pub fn rule_holds(lines: &[usize], facts: &[u64], picks: &[u64], n: usize) -> bool
    requires { SoundLines n lines.now }
    ensures { (H : Truth) (root : Tree) → Says H root n lines.now (leaf_at facts.now picks.now n)
        → result ≡ H no_values root }
{
    let env = [0usize; 4];
    let q = part_at(lines, 64);
    if q.tag == 0 {
        return node_holds(lines, facts, picks, n, q.which, env);
    }
    leaf_holds(lines, facts, picks, n, 64, q, env)
}
