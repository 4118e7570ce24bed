// Where the numbers of atoms and actions start; and the flat table that steps read, filled from that.
#![tactic(auto)]

ghost use Rattle.std.specs.Prelude.{◌≡◌, List, ℕ, suc, ◌+◌, ◌-◌, ◌*◌, ◌^◌, ◌<◌, ◌≤◌, get_or, length};
ghost use Rattle.definitions.specs.Problem.Atoms.{Problem};
ghost use Rattle.rule_nodes.specs.Tables.{Fits, no_part, PartFits};
ghost use Rattle.problem_layout.specs.Laid.{relation_width, set_width, most_width, node_width, choices_of, range_by, RangesFit, RangesAre, RelationsFit, Inputs, has_last, RelationsLaid, NodesLaid, LastLaid, Laid, Small, number_limit};
ghost use Rattle.rows.specs.Values.{Most};
ghost use Rattle.problem_table.specs.Lines.{table_length, root_place};
ghost use Rattle.definitions.specs.Lists.{below, greatest};
ghost use Rattle.problem_layout.specs.Filled.{relations_place, nodes_place, parts_place, range_start, range_count, place_start, place_count, splice, node_from, node_numbers, start_in, numbers_from, part_numbers, relation_lines, node_lines, part_lines, with_ranges, table_of, Filled};

use rule_nodes::{NodeRow, Nodes, PartRow};

// The most relations that a question has: five built in, those of 8 `rel` and 4 `choose` lines, that of an `every` line.
pub const RELATIONS: usize = 18;

pub const NODES: usize = rule_nodes::NODES;

// The relations by number: arity and kind (0 static, 1 plain, 2 Fun, 3 PFun, 4 Inj, 5 PInj, 6 that of an `every` line, which is the
// last) of each, and the sorts of its first and of its second place (0, all elements, unless it is of a function kind with types).
#[derive(Clone, Copy)]
pub struct Relations {
    pub count: usize,
    pub arity: [usize; RELATIONS],
    pub kind: [usize; RELATIONS],
    pub firsts: [usize; RELATIONS],
    pub seconds: [usize; RELATIONS],
}

// The most sorts of a variable: all elements, and the members of 8 types.
pub const SORTS: usize = 9;

// What a variable of each sort goes over: how many elements, and the greatest of them.
#[derive(Clone, Copy)]
pub struct Ranges {
    pub count: [usize; SORTS],
    pub top: [usize; SORTS],
}

// The same of one sort.
#[derive(Clone, Copy)]
struct Range {
    count: usize,
    top: usize,
}

// Where a relation's tuples, not-tuples, free atoms (of an `every` line's its marks) and set actions start, and a node's atoms and
// actions; in `set`, `node` and `act` what comes after the last one starts at the next entry, and in `rel` the nodes do.
#[derive(Clone, Copy)]
pub struct Layout {
    pub rel: [usize; RELATIONS + 1],
    pub neg: [usize; RELATIONS],
    pub dom: [usize; RELATIONS],
    pub set: [usize; RELATIONS + 1],
    pub node: [usize; NODES + 1],
    pub act: [usize; NODES + 1],
}

// The part of a layout that the relations have, and where it ends.
#[derive(Clone, Copy)]
struct RelationStarts {
    rel: [usize; RELATIONS + 1],
    neg: [usize; RELATIONS],
    dom: [usize; RELATIONS],
    set: [usize; RELATIONS + 1],
    at: usize,
    sets: usize,
}

// The part that the nodes have, and where it ends.
#[derive(Clone, Copy)]
struct NodeStarts {
    node: [usize; NODES + 1],
    act: [usize; NODES + 1],
    at: usize,
    acts: usize,
}

// How many atoms a relation with `size` tuples has before the nodes; those of an `every` line's come after them.
pub fn relation_width(n: usize, size: usize, kind: usize) -> usize
    requires { (n ≤ 64) × (size ≤ 64 ^ 4) }
    ensures { result ≡ relation_width n size kind }
{
    if kind < 2 {
        return size + size;
    }
    if kind < 4 {
        return size + size + n;
    }
    if kind < 6 {
        return size + size + n + n;
    }
    0
}

// How many set actions it has, where its two places have `firsts` and `seconds` elements.
pub fn set_width(size: usize, firsts: usize, seconds: usize, kind: usize) -> usize
    requires { (firsts ≤ 64) × (seconds ≤ 64) }
    ensures { result ≡ set_width size firsts seconds kind }
{
    if kind == 0 {
        return 0;
    }
    if kind == 1 {
        return size;
    }
    if kind < 6 {
        return firsts * seconds;
    }
    0
}

// How many picks of it there are at the most.
pub fn most_width(n: usize, size: usize, kind: usize) -> usize
    ensures { result ≡ most_width n size kind }
{
    if kind == 0 {
        return 0;
    }
    if kind == 1 {
        return size;
    }
    if kind < 6 {
        return n;
    }
    0
}

// How many atoms a node has whose free variables have `rows` values.
pub fn node_width(n: usize, rows: usize, kind: usize) -> usize
    requires { (n ≤ 64) × (rows ≤ 64 ^ 4) }
    ensures { result ≡ node_width n rows kind }
{
    if kind == 0 {
        return rows * n;
    }
    rows
}

// How many actions it has at each of these, where a quantifier's range has `count` elements.
pub fn choices(count: usize, kind: usize, many: usize) -> usize
    ensures { result ≡ choices_of count kind many }
{
    if kind < 2 {
        return count;
    }
    if kind == 2 {
        return 1;
    }
    many
}

// The range of a type, by the words of members.
fn range_of(n: usize, members: &[u64], k: usize) -> Range
    requires { (0 < n) × (n ≤ 64) × (k < length members.now) × (k < 8) }
    ensures { (result.count ≡ length (range_by n members.now (suc k))) × (result.top ≡ greatest (range_by n members.now (suc k))) × (result.count ≤ n) × (result.top < n) }
{
    let mut count: usize = 0;
    let mut top: usize = 0;
    for x in 0..n {
        if bits::get(members, 64 * k + x) {
            count += 1;
            top = x;
        }
    }
    Range { count, top }
}

// The ranges of all elements and of the first `types` types, by a word of members for each type: bit x says that element x is one.
pub fn ranges_of(n: usize, types: usize, members: &[u64]) -> Ranges
    requires { (0 < n) × (n ≤ 64) × (types ≤ 8) × (types ≤ length members.now) }
    ensures { RangesFit n result × RangesAre n members.now types result }
{
    let mut count = [0usize; SORTS];
    let mut top = [0usize; SORTS];
    let last = n - 1;
    count[0] = n;
    top[0] = last;
    for k in 0..types {
        let m = range_of(n, members, k);
        count[k + 1] = m.count;
        top[k + 1] = m.top;
    }
    Ranges { count, top }
}

fn relation_starts(n: usize, ranges: Ranges, g: Relations) -> RelationStarts
    requires { (0 < n) × (n ≤ 64) × RelationsFit g × RangesFit n ranges }
    ensures { RelationsLaid n ranges.count g g.count result.rel result.neg result.dom result.set result.at result.sets }
{
    let mut rel = [0usize; RELATIONS + 1];
    let mut neg = [0usize; RELATIONS];
    let mut dom = [0usize; RELATIONS];
    let mut set = [0usize; RELATIONS + 1];
    rel[0] = 3;
    let mut at: usize = 3;
    let mut sets: usize = 0;
    for i in 0..g.count {
        let kind = g.kind[i];
        let size = rows::power(n, g.arity[i]);
        neg[i] = at + size;
        dom[i] = at + (size + size);
        at = at + relation_width(n, size, kind);
        let firsts = ranges.count[g.firsts[i]];
        let seconds = ranges.count[g.seconds[i]];
        sets = sets + set_width(size, firsts, seconds, kind);
        rel[i + 1] = at;
        set[i + 1] = sets;
    }
    RelationStarts {
        rel,
        neg,
        dom,
        set,
        at,
        sets,
    }
}

fn node_starts(
    n: usize,
    ranges: Ranges,
    t: rule_nodes::Nodes,
    from: usize,
    first: usize,
) -> NodeStarts
    requires { (0 < n) × (n ≤ 64) × Fits t × (from ≤ 2 ^ 32) × (first ≤ 2 ^ 32) × RangesFit n ranges }
    ensures { NodesLaid n ranges.count t from first t.count result.node result.act result.at result.acts }
{
    let mut node = [0usize; NODES + 1];
    let mut act = [0usize; NODES + 1];
    node[0] = from;
    act[0] = first;
    let mut at = from;
    let mut acts = first;
    for v in 0..t.count {
        let row = t.rows[v];
        let kind = rule_nodes::wide(row.kind);
        let rows = rows::power(n, rule_nodes::wide(row.width));
        at = at + node_width(n, rows, kind);
        let count = ranges.count[rule_nodes::wide(row.sort)];
        acts = acts + rows * choices(count, kind, rule_nodes::wide(row.many));
        node[v + 1] = at;
        act[v + 1] = acts;
    }
    NodeStarts {
        node,
        act,
        at,
        acts,
    }
}

// Whether the last relation is that of an `every` line.
#[tactic(auto, unfolding(crate::specs::Laid::has_last))]
pub fn has_last(g: Relations) -> bool
    requires { RelationsFit g }
    ensures { result ≡ has_last g }
{
    0 < g.count && g.kind[g.count - 1] == 6
}

// The same starts, but those of an `every` line's relation come behind the nodes, which end at `end`.
fn last_starts(n: usize, g: Relations, r: RelationStarts, end: usize) -> RelationStarts
    requires { (0 < n) × (n ≤ 64) × RelationsFit g × (end ≤ 2 ^ 40) }
    ensures { LastLaid n g end r.rel r.neg r.dom result.rel result.neg result.dom × (result.set ≡ r.set) }
{
    if has_last(g) {
        let e = g.count - 1;
        let size = rows::power(n, g.arity[e]);
        let mut rel = r.rel;
        let mut neg = r.neg;
        let mut dom = r.dom;
        rel[e] = end;
        neg[e] = end + size;
        dom[e] = end + (size + size);
        return RelationStarts { rel, neg, dom, ..r };
    }
    r
}

// The layout of n elements, their ranges, the relations and the nodes of a tree.
pub fn lay_out(n: usize, ranges: Ranges, g: Relations, t: rule_nodes::Nodes) -> Layout
    requires { (0 < n) × (n ≤ 64) × RelationsFit g × Fits t × RangesFit n ranges }
    ensures { (p : Problem) (w : List ℕ) (k : ℕ) → RangesAre n w k ranges → Inputs p n w k g t → Laid p result }
{
    let r = relation_starts(n, ranges, g);
    let first = r.sets + 1;
    let s = node_starts(n, ranges, t, r.at, first);
    let e = last_starts(n, g, r, s.at);
    // each array goes through a variable: it cannot be put into a literal straight from a field
    let rel = e.rel;
    let neg = e.neg;
    let dom = e.dom;
    let set = e.set;
    let node = s.node;
    let act = s.act;
    Layout {
        rel,
        neg,
        dom,
        set,
        node,
        act,
    }
}

// The numbers of a line are written from place `at` on.
pub fn store(table: &mut [usize], at: usize, line: &[usize])
    requires { at + length line.now ≤ length table.old }
    ensures { table.new ≡ splice at line.now table.old }
{
    table[at..at + line.len()].copy_from_slice(line);
}

// Where the range of a place of a relation of that kind starts, and how many of the elements of its sort it has: only a function kind
// has any.
fn place_start(kind: usize, sort: usize) -> usize
    requires { sort ≤ 8 }
    ensures { result ≡ place_start kind sort }
{
    if kind < 2 {
        return 0;
    }
    if 5 < kind {
        return 0;
    }
    problem_table::RANGE_AT + problem_table::RANGE_LINE * sort
}

fn place_count(count: usize, kind: usize) -> usize
    ensures { result ≡ place_count count kind }
{
    if kind < 2 {
        return 0;
    }
    if 5 < kind {
        return 0;
    }
    count
}

// The lines of the relations, and the line past the last.
fn fill_relations(table: &mut [usize], g: Relations, l: Layout, ranges: Ranges)
    requires { (length table.old ≡ table_length) × RelationsFit g }
    ensures { table.new ≡ splice relations_place (relation_lines ranges.count g l) table.old }
{
    for r in 0..g.count {
        let kind = g.kind[r];
        let firsts = place_start(kind, g.firsts[r]);
        let first_count = place_count(ranges.count[g.firsts[r]], kind);
        let seconds = place_start(kind, g.seconds[r]);
        let second_count = place_count(ranges.count[g.seconds[r]], kind);
        let line = [
            l.set[r],
            l.rel[r],
            l.neg[r],
            l.dom[r],
            kind,
            firsts,
            first_count,
            seconds,
            second_count,
        ];
        store(
            table,
            problem_table::RELATION_AT + problem_table::RELATION_LINE * r,
            &line,
        );
    }
    let last = [l.set[g.count], l.rel[g.count], 0, 0, 0, 0, 0, 0, 0];
    store(
        table,
        problem_table::RELATION_AT + problem_table::RELATION_LINE * g.count,
        &last,
    );
}

// Where the range of a node of that kind starts, and how many of the elements of its sort it has: only a quantifier goes over any.
fn range_start(kind: usize, sort: usize) -> usize
    requires { sort < 256 }
    ensures { (result ≡ range_start kind sort) × (result ≤ 2 ^ 32) }
{
    if kind < 2 {
        return problem_table::RANGE_AT + problem_table::RANGE_LINE * sort;
    }
    0
}

fn range_count(count: usize, kind: usize) -> usize
    requires { count ≤ 64 }
    ensures { (result ≡ range_count count kind) × (result ≤ 64) }
{
    if kind < 2 {
        return count;
    }
    0
}

// The line of a node whose actions and atoms start there and whose sort has `many` elements.
fn node_numbers(many: usize, act: usize, node: usize, x: NodeRow) -> [usize; 13]
    requires { (many ≤ 64) × (act ≤ number_limit) × (node ≤ number_limit) }
    ensures { (result ≡ node_from many act node x) × Most result (2 ^ 32) }
{
    let ls = x.levels;
    let kind = rule_nodes::wide(x.kind);
    let range = range_start(kind, rule_nodes::wide(x.sort));
    let count = range_count(many, kind);
    [
        act,
        node,
        kind,
        rule_nodes::wide(x.level),
        rule_nodes::wide(x.first),
        rule_nodes::wide(x.many),
        rule_nodes::wide(x.width),
        rule_nodes::wide(ls[0]),
        rule_nodes::wide(ls[1]),
        rule_nodes::wide(ls[2]),
        rule_nodes::wide(ls[3]),
        range,
        count,
    ]
}

// The lines of the nodes, and the line past the last.
fn fill_nodes(table: &mut [usize], n: usize, t: Nodes, l: Layout, ranges: Ranges)
    requires { (length table.old ≡ table_length) × RangesFit n ranges × Fits t × Small l number_limit }
    ensures { (table.new ≡ splice nodes_place (node_lines ranges.count t l) table.old) × ((v : ℕ) → v < t.count → Most (node_numbers ranges.count t l v) (2 ^ 32)) }
{
    for v in 0..t.count {
        let x = t.rows[v];
        let many = ranges.count[rule_nodes::wide(x.sort)];
        let line = node_numbers(many, l.act[v], l.node[v], x);
        store(
            table,
            problem_table::NODE_AT + problem_table::NODE_LINE * v,
            &line,
        );
    }
    let last = [
        l.act[t.count],
        l.node[t.count],
        0,
        0,
        0,
        0,
        0,
        0,
        0,
        0,
        0,
        0,
        0,
    ];
    store(
        table,
        problem_table::NODE_AT + problem_table::NODE_LINE * t.count,
        &last,
    );
}

// Where the atoms of a part's relation or node start; the arrays of a layout come as slices, so that no call copies it.
fn start_of(rel: &[usize], neg: &[usize], node: &[usize], tag: u8, which: usize) -> usize
    requires { (tag < 2 → which < 18) × (2 ≤ tag → which < 64) × (18 ≤ length rel.now) × (18 ≤ length neg.now) × (64 ≤ length node.now) }
    ensures { result ≡ start_in rel.now neg.now node.now tag which }
{
    if tag == 0 {
        return rel[which];
    }
    if tag == 1 {
        return neg[which];
    }
    node[which]
}

// The line of a part whose atoms start there; a `forall` stands for its atom at the greatest element of its range, `top`.
fn part_numbers(n: usize, top: usize, start: usize, q: PartRow) -> [usize; 5]
    requires { (0 < n) × (n ≤ 64) × PartFits q × (start ≤ number_limit) × (top < n) }
    ensures { (result ≡ numbers_from n top start q) × Most result (2 ^ 32) }
{
    let levels = q.levels;
    let w = rows::weights(n, levels, rule_nodes::wide(q.width));
    if q.tag == 2 {
        return [start + top, w[0] * n, w[1] * n, w[2] * n, w[3] * n];
    }
    [start, w[0], w[1], w[2], w[3]]
}

// The lines of the parts, and the root's.
fn fill_parts(table: &mut [usize], n: usize, t: Nodes, l: Layout, ranges: Ranges)
    requires { (length table.old ≡ table_length) × (0 < n) × (n ≤ 64) × Fits t × Small l number_limit × RangesFit n ranges }
    ensures { (table.new ≡ splice root_place (part_numbers n ranges.top l t.root) (splice parts_place (part_lines n ranges.top t l) table.old))
        × ((i : ℕ) → i < t.placed → Most (part_numbers n ranges.top l (get_or t.parts i no_part)) (2 ^ 32)) × Most (part_numbers n ranges.top l t.root) (2 ^ 32) }
{
    let rel = l.rel;
    let neg = l.neg;
    let node = l.node;
    for i in 0..t.placed {
        let q = t.parts[i];
        let start = start_of(&rel, &neg, &node, q.tag, rule_nodes::wide(q.which));
        let top = ranges.top[rule_nodes::wide(q.sort)];
        let line = part_numbers(n, top, start, q);
        store(
            table,
            problem_table::PART_AT + problem_table::PART_LINE * i,
            &line,
        );
    }
    let q = t.root;
    let start = start_of(&rel, &neg, &node, q.tag, rule_nodes::wide(q.which));
    let top = ranges.top[rule_nodes::wide(q.sort)];
    let last = part_numbers(n, top, start, q);
    store(table, problem_table::ROOT_AT, &last);
}

// The range of all elements, from place `at` on.
pub fn fill_range(table: &mut [usize], at: usize, n: usize)
    requires { at + n ≤ length table.old }
    ensures { table.new ≡ splice at (below n) table.old }
{
    for i in 0..n {
        table[at + i] = i;
    }
}

// The range of a type, by the words of members, from place `at` on.
fn fill_members(table: &mut [usize], at: usize, n: usize, members: &[u64], k: usize)
    requires { (at + n ≤ length table.old) × (n ≤ 64) × (k < length members.now) × (k < 8) }
    ensures { table.new ≡ splice at (range_by n members.now (suc k)) table.old }
{
    let mut i: usize = 0;
    for x in 0..n {
        if bits::get(members, 64 * k + x) {
            table[at + i] = x;
            i += 1;
        }
    }
}

// The ranges of all elements and of the first `types` types, 64 numbers for each, from place `at` on.
pub fn fill_ranges(table: &mut [usize], at: usize, n: usize, types: usize, members: &[u64])
    requires { (at + 64 * types + 64 ≤ length table.old) × (n ≤ 64) × (types ≤ 8) × (types ≤ length members.now) }
    ensures { table.new ≡ with_ranges at n members.now types table.old }
{
    fill_range(table, at, n);
    for k in 0..types {
        fill_members(
            table,
            at + problem_table::RANGE_LINE * (k + 1),
            n,
            members,
            k,
        );
    }
}

// The whole table, in place of zeros: the lines past the last relation, node, part and sort stay as they were.
pub fn fill(
    table: &mut [usize],
    n: usize,
    types: usize,
    members: &[u64],
    ranges: Ranges,
    g: Relations,
    t: Nodes,
    l: Layout,
)
    requires { (length table.old ≡ table_length) × Most table.old 0 × (0 < n) × (n ≤ 64) × RelationsFit g × Fits t × Small l number_limit × (types ≤ 8) × (types ≤ length members.now)
        × RangesFit n ranges × RangesAre n members.now types ranges }
    ensures { (table.new ≡ table_of n members.now types ranges g t l table.old) × Filled n members.now types g t l table.new }
{
    table[0] = n;
    table[1] = g.count;
    table[2] = t.count;
    fill_relations(table, g, l, ranges);
    fill_nodes(table, n, t, l, ranges);
    fill_parts(table, n, t, l, ranges);
    fill_ranges(table, problem_table::RANGE_AT, n, types, members);
}
