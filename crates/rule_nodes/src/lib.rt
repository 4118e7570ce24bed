// The tree of a rule as a table by value: its non-literal nodes in preorder, and the parts of each side by side. It is made from the
// tree's rows in postorder, in one pass with a stack of parts that have no parent yet.
#![tactic(auto)]

ghost use Rattle.std.specs.Prelude.{◌≡◌, false, not, ◌&&◌, ◌||◌, ℕ, ◌≤◌, ◌<◌, length, get_or, eqb, if◌then◌else◌};
ghost use Rattle.definitions.specs.Lists.{filter, below};
ghost use Rattle.definitions.specs.Problem.Tree.{Tree};
ghost use Rattle.rule_nodes.specs.Tables.{IsTable, Fits};
ghost use Rattle.rule_nodes.specs.Postorder.{rows_in, row_at, rows_from, with_row};
ghost use Rattle.rule_nodes.specs.Pass.{has_level, is_own, levels_of, listed_of, leaf_part, node_part, node_row, blank_part, blank_row, Ranged};
ghost use Rattle.rule_nodes.specs.Whole.{Of};

// As many nodes, and as many parts, as a rule has forms at the most.
pub const NODES: usize = 64;

// A part of a node: a tuple (tag 0) or not-tuple (1) of relation `which` at its argument levels, or node `which` with its free
// levels, outermost first, a `forall` (2) or another (3). A quantifier has a sort, what is none has 0. The first `width` of the levels
// count.
#[derive(Clone, Copy)]
pub struct PartRow {
    pub tag: u8,
    pub which: u8,
    pub sort: u8,
    pub levels: [u8; 4],
    pub width: u8,
}

// A node: its kind (0 forall, 1 exists, 2 and, 3 or), a quantifier's level and sort, its free levels, outermost first, and where its parts
// stand: `many` of them from part `first` on.
#[derive(Clone, Copy)]
pub struct NodeRow {
    pub kind: u8,
    pub level: u8,
    pub sort: u8,
    pub levels: [u8; 4],
    pub width: u8,
    pub first: u8,
    pub many: u8,
}

// The first `count` nodes in preorder, the first `placed` parts of all nodes, and the root as a part.
#[derive(Clone, Copy)]
pub struct Nodes {
    pub count: usize,
    pub placed: usize,
    pub rows: [NodeRow; NODES],
    pub parts: [PartRow; NODES],
    pub root: PartRow,
}

// As many rows as a rule has forms at the most.
pub const ROWS: usize = 64;

// A tree's row; the rows of its parts come before it. A node has its kind (0 forall, 1 exists, 2 and, 3 or), its preorder number
// `which`, `many` parts, and for a quantifier its sort and its level, alone in `levels`. A literal (kind 4, a not-tuple 5) has its relation
// `which`, no parts, and its levels. The first `width` of the levels count, the others are 0, as is the sort of what is no quantifier.
#[derive(Clone, Copy)]
pub struct Row {
    pub kind: u8,
    pub which: u8,
    pub many: u8,
    pub sort: u8,
    pub width: u8,
    pub levels: [u8; 3],
}

// How many bytes a row has in a lent table of rows, and how many such a table has.
const WIDTH: usize = 8;

pub const BYTES: usize = WIDTH * ROWS;

// Which levels occur.
#[derive(Clone, Copy)]
struct Marks {
    at: [bool; 4],
}

// Levels in order; the first `width` count, the others are 0.
#[derive(Clone, Copy)]
struct Levels {
    at: [u8; 4],
    width: usize,
}

// A byte as a number.
pub fn wide(x: u8) -> usize
    ensures { (result ≡ x) × (result < 256) }
{
    x as usize
}

// The levels of a part are marked too.
fn also(m: Marks, p: PartRow) -> Marks
    ensures { (l : ℕ) → l < 4 → get_or result.at l false ≡ (get_or m.at l false || has_level l p) }
{
    let mut r = m;
    let width = wide(p.width);
    for i in 0..4 {
        if i == width {
            return r;
        }
        let l = wide(p.levels[i]);
        if l < 4 {
            r.at[l] = true;
        }
    }
    r
}

// Is l the level of a quantifier's row.
fn is_own(row: Row, l: usize) -> bool
    ensures { result ≡ is_own row l }
{
    row.kind < 2 && l == wide(row.levels[0])
}

// One level more, if it is marked and not the row's own.
fn listed(r: Levels, l: usize, own: bool, marked: bool) -> Levels
    requires { (r.width < 4) × (l < 4) }
    ensures { result ≡ listed_of r l (not own && marked) }
{
    if own {
        return r;
    }
    if marked {
        let n = r.width;
        let mut q = r;
        q.at[n] = l as u8;
        q.width = n + 1;
        return q;
    }
    r
}

// The levels that are marked, in order, without the row's own.
fn free_levels(m: Marks, row: Row) -> Levels
    ensures { result ≡ levels_of (filter (λ l. not (is_own row l) && get_or m.at l false) (below 4)) }
{
    let mut r = Levels {
        at: [0u8; 4],
        width: 0,
    };
    for (l, marked) in m.at.iter().enumerate() {
        r = listed(r, l, is_own(row, l), *marked);
    }
    r
}

// A literal as a part.
fn leaf_part(row: Row) -> PartRow
    requires { 4 ≤ row.kind }
    ensures { result ≡ leaf_part row }
{
    PartRow {
        tag: row.kind - 4,
        which: row.which,
        sort: row.sort,
        levels: [row.levels[0], row.levels[1], row.levels[2], 0],
        width: row.width,
    }
}

fn node_tag(kind: u8) -> u8
    ensures { result ≡ (if eqb kind 0 then 2 else 3) }
{
    if kind == 0 { 2 } else { 3 }
}

// A node as a part.
fn node_part(row: Row, free: Levels) -> PartRow
    requires { free.width ≤ 4 }
    ensures { result ≡ node_part row free }
{
    let levels = free.at;
    let tag = node_tag(row.kind);
    PartRow {
        tag,
        which: row.which,
        sort: row.sort,
        levels,
        width: free.width as u8,
    }
}

// A node's row of the table; its parts stand from `first` on.
fn node_row(row: Row, free: Levels, first: usize) -> NodeRow
    requires { (free.width ≤ 4) × (first ≤ 64) }
    ensures { result ≡ node_row row free first }
{
    let levels = free.at;
    NodeRow {
        kind: row.kind,
        level: row.levels[0],
        sort: row.sort,
        levels,
        width: free.width as u8,
        first: first as u8,
        many: row.many,
    }
}

fn no_part() -> PartRow
    ensures { result ≡ blank_part }
{
    PartRow {
        tag: 0,
        which: 0,
        sort: 0,
        levels: [0u8; 4],
        width: 0,
    }
}

fn no_row() -> NodeRow
    ensures { result ≡ blank_row }
{
    NodeRow {
        kind: 0,
        level: 0,
        sort: 0,
        levels: [0u8; 4],
        width: 0,
        first: 0,
        many: 0,
    }
}

// Row i of a lent table.
fn row_at(rows: &[u8], i: usize) -> Row
    requires { (length rows.now ≡ 512) × (i < 64) }
    ensures { result ≡ row_at rows.now i }
{
    let at = WIDTH * i;
    Row {
        kind: rows[at],
        which: rows[at + 1],
        many: rows[at + 2],
        sort: rows[at + 7],
        width: rows[at + 3],
        levels: [rows[at + 4], rows[at + 5], rows[at + 6]],
    }
}

// Row i of a lent table becomes `row`.
pub fn put_row(rows: &mut [u8], i: usize, row: Row)
    requires { (length rows.old ≡ 512) × (i < 64) }
    ensures { (length rows.new ≡ 512) × ((len nodes : ℕ) → rows_from rows.new len nodes ≡ with_row (rows_from rows.old len nodes) i row) }
{
    let at = WIDTH * i;
    let levels = row.levels;
    rows[at] = row.kind;
    rows[at + 1] = row.which;
    rows[at + 2] = row.many;
    rows[at + 3] = row.width;
    rows[at + 4] = levels[0];
    rows[at + 5] = levels[1];
    rows[at + 6] = levels[2];
    rows[at + 7] = row.sort;
}

// The table of the tree of which these are the first `len` rows, `count` of them nodes.
pub fn tabulate(from: &[u8], len: usize, count: usize) -> Nodes
    requires { (length from.now ≡ 512) × (len ≤ 64) × Ranged 0 0 (rows_in (rows_from from.now len count)) }
    ensures { (rels : ℕ) (root : Tree) → Of rels root (rows_from from.now len count) → IsTable rels root result × Fits result }
{
    let blank = no_part();
    let blank_row = no_row();
    let mut stack = [blank; 64];
    let mut parts = [blank; 64];
    let mut rows = [blank_row; 64];
    let mut height = 0;
    let mut placed = 0;
    for i in 0..len {
        let row = row_at(from, i);
        if row.kind >= 4 {
            stack[height] = leaf_part(row);
            height += 1;
            continue;
        }
        let first = placed;
        let base = height - wide(row.many);
        let mut marks = Marks { at: [false; 4] };
        for j in base..height {
            let p = stack[j];
            parts[placed] = p;
            marks = also(marks, p);
            placed += 1;
        }
        let free = free_levels(marks, row);
        let v = wide(row.which);
        rows[v] = node_row(row, free, first);
        stack[base] = node_part(row, free);
        height = base + 1;
    }
    Nodes {
        count,
        placed,
        rows,
        parts,
        root: stack[0],
    }
}
