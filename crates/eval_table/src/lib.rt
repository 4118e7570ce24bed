// The lines of `eval_rule`, filled from the relations and the node table of a rule; and whether the rule is true of picks.
#![tactic(auto)]

ghost use Rattle.std.specs.Prelude.{◌≡◌, true, List, ◌++◌, ℕ, ◌^◌, ◌<◌, ◌≤◌, length};
ghost use Rattle.std.proofs.Math.Option.{none};
ghost use Rattle.definitions.specs.Sheet.Relations.{Tuple};
ghost use Rattle.definitions.specs.Problem.Truth.{Case, are_picks, every_value, rule_holds};
ghost use Rattle.definitions.specs.Problem.Atoms.{problem_of};
ghost use Rattle.definitions.specs.Problem.Tree.{tree_of};
ghost use Rattle.bits.specs.Table.{digit};
ghost use Rattle.laws.specs.Reader.{Accepted};
ghost use Rattle.laws.specs.Valued.{tree_by, by_picks};
ghost use Rattle.rule_nodes.specs.Tables.{PartFits, Fits};
ghost use Rattle.rows.specs.Values.{Most};
ghost use Rattle.problem_layout.specs.Laid.{RangesFit, RelationsFit};
ghost use Rattle.problem_layout.specs.Filled.{splice, tab};
ghost use Rattle.step_start.specs.Initial.{FactsIn};
ghost use Rattle.step_picks.specs.Words.{PicksAre};
ghost use Rattle.eval_rule.specs.Lines.{range_place, lines_length};
ghost use Rattle.eval_rule.specs.Says.{no_values};
ghost use Rattle.eval_table.specs.Lined.{source_of, first_bit, fact_words, choose_words, turns_of, own_line, block_line, node_of, Lined};
ghost use Rattle.eval_table.specs.Worded.{WordsAre};
ghost use Rattle.eval_table.specs.Numbers.{node_numbers, part_numbers, part_list, node_lines, part_lines, Bits, LinesOf, OfCase};

use problem_layout::{Ranges, Relations};
use rule_nodes::{NodeRow, Nodes, PartRow};

// The first bit of a relation, by the words before it. A built-in one has none, and an `every` relation's tuples are the digits of its value.
fn first_bit(r: usize, kind: usize, facts: usize, picks: usize) -> usize
    requires { (facts ≤ 2 ^ 24) × (picks ≤ 2 ^ 24) }
    ensures { (result ≡ first_bit r kind facts picks) × (result ≤ 2 ^ 32) }
{
    if r < 5 {
        return 0;
    }
    if kind == 0 {
        return 64 * facts;
    }
    if kind == 6 {
        return 0;
    }
    64 * picks
}

// How many words of facts, and of picks, a relation has.
fn fact_words(r: usize, words: usize) -> usize
    ensures { (result ≡ fact_words r words) × (result ≤ words) }
{
    if r < 5 {
        return 0;
    }
    words
}

fn choose_words(kind: usize, words: usize) -> usize
    ensures { (result ≡ choose_words kind words) × (result ≤ words) }
{
    if kind == 0 {
        return 0;
    }
    if kind == 6 {
        return 0;
    }
    words
}

// The first bit of each relation.
fn bits_of(n: usize, g: Relations) -> [usize; problem_layout::RELATIONS]
    requires { (0 < n) × (n ≤ 64) × RelationsFit g }
    ensures { Bits n g result × Most result (2 ^ 32) }
{
    let mut bits = [0usize; problem_layout::RELATIONS];
    let mut facts: usize = 0;
    let mut picks: usize = 0;
    for r in 0..problem_layout::RELATIONS {
        let kind = g.kind[r];
        let words = (rows::power(n, g.arity[r]) + 63) / 64;
        bits[r] = first_bit(r, kind, facts, picks);
        facts = facts + fact_words(r, words);
        picks = picks + choose_words(kind, words);
    }
    bits
}

// Where a relation's tuples are, where that of an `every` line has this value.
fn source(r: usize, kind: usize, value: usize) -> usize
    requires { value < 256 }
    ensures { (result ≡ source_of value r kind) × (result ≤ 262) }
{
    if r < 5 {
        return r;
    }
    if kind == 0 {
        return 5;
    }
    if kind == 6 {
        return 7 + value;
    }
    6
}

// The line of a part. A node has weights too: they tell at which levels it is the same.
fn part_numbers(n: usize, kinds: &[usize], bits: &[usize], q: PartRow, value: usize) -> [usize; 7]
    requires { (0 < n) × (n ≤ 64) × PartFits q × (18 ≤ length kinds.now) × (18 ≤ length bits.now) × Most bits.now (2 ^ 32) × (value < 256) }
    ensures { (result ≡ part_numbers n value kinds.now bits.now q) × Most result (2 ^ 32) }
{
    let which = rule_nodes::wide(q.which);
    let levels = q.levels;
    let w = rows::weights(n, levels, rule_nodes::wide(q.width));
    if q.tag < 2 {
        return [
            rule_nodes::wide(q.tag) + 1,
            source(which, kinds[which], value),
            bits[which],
            w[0],
            w[1],
            w[2],
            w[3],
        ];
    }
    [0, which, 0, w[0], w[1], w[2], w[3]]
}

// How many turns a quantifier of a level makes over its part: where the level is not free there, one serves for all `count` elements
// of its range.
fn turns_of(count: usize, level: u8, q: PartRow) -> usize
    requires { (count ≤ 64) × PartFits q }
    ensures { (result ≡ turns_of count level q) × (result ≤ 64) }
{
    let levels = q.levels;
    let width = rule_nodes::wide(q.width);
    for i in 0..width {
        if levels[i] == level {
            return count;
        }
    }
    1
}

// Where the elements of a sort stand.
fn range_of(sort: u8) -> usize
    ensures { (result ≡ range_place sort) × (result ≤ 2 ^ 32) }
{
    eval_rule::RANGE_AT + eval_rule::RANGE_LINE * rule_nodes::wide(sort)
}

// The line of a node by its own parts.
fn own_line(turns: usize, x: NodeRow) -> [usize; 7]
    requires { turns ≤ 64 }
    ensures { (result ≡ node_numbers (own_line turns x)) × Most result (2 ^ 32) }
{
    let kind = rule_nodes::wide(x.kind);
    let level = rule_nodes::wide(x.level);
    let first = rule_nodes::wide(x.first);
    let many = rule_nodes::wide(x.many);
    let range = range_of(x.sort);
    if kind < 2 {
        return [kind, level, 1, first, many, range, turns];
    }
    [2, 0, kind - 2, first, many, range, 1]
}

// The line of a node whose first part is q, and node y where that part is a node.
fn block_line(turns: usize, x: NodeRow, q: PartRow, y: NodeRow) -> [usize; 7]
    requires { turns ≤ 64 }
    ensures { (result ≡ node_numbers (block_line turns x q y)) × Most result (2 ^ 32) }
{
    let kind = rule_nodes::wide(x.kind);
    if kind < 2 {
        if q.tag < 2 {
            return own_line(turns, x);
        }
        let join = rule_nodes::wide(y.kind);
        if join < 2 {
            return own_line(turns, x);
        }
        let level = rule_nodes::wide(x.level);
        let first = rule_nodes::wide(y.first);
        let many = rule_nodes::wide(y.many);
        let range = range_of(x.sort);
        return [kind, level, join - 2, first, many, range, turns];
    }
    own_line(turns, x)
}

// The line of a node of the table, whose sort has `count` elements.
fn node_line(count: usize, t: Nodes, x: NodeRow) -> [usize; 7]
    requires { (count ≤ 64) × Fits t }
    ensures { (result ≡ node_numbers (node_of count t x)) × Most result (2 ^ 32) }
{
    let at = rule_nodes::wide(x.first);
    if at < rule_nodes::NODES {
        let q = t.parts[at];
        let which = rule_nodes::wide(q.which);
        let y = t.rows[which];
        return block_line(turns_of(count, x.level, q), x, q, y);
    }
    own_line(1, x)
}

// The lines of the nodes.
fn fill_nodes(lines: &mut [usize], n: usize, t: Nodes, ranges: Ranges)
    requires { (length lines.old ≡ lines_length) × RangesFit n ranges × Fits t }
    ensures { (lines.new ≡ splice 0 (tab (node_lines ranges.count t) t.count) lines.old) × ((v : ℕ) → v < t.count → Most (node_lines ranges.count t v) (2 ^ 32)) }
{
    for v in 0..t.count {
        let x = t.rows[v];
        let count = ranges.count[rule_nodes::wide(x.sort)];
        let line = node_line(count, t, x);
        problem_layout::store(lines, eval_rule::NODE_LINE * v, &line);
    }
}

// The line of a part of the table.
fn part_line(n: usize, g: Relations, bits: &[usize], q: PartRow, value: usize) -> [usize; 7]
    requires { (0 < n) × (n ≤ 64) × PartFits q × (18 ≤ length bits.now) × Bits n g bits.now × Most bits.now (2 ^ 32) × (value < 256) }
    ensures { (result ≡ part_list n value g q) × Most result (2 ^ 32) }
{
    let kinds = g.kind;
    part_numbers(n, &kinds, bits, q, value)
}

// The lines of the parts, and the root's.
fn fill_parts(lines: &mut [usize], n: usize, g: Relations, t: Nodes, value: usize)
    requires { (length lines.old ≡ lines_length) × (0 < n) × (n ≤ 64) × RelationsFit g × Fits t × (value < 256) }
    ensures { (lines.new ≡ splice 896 (part_list n value g t.root) (splice 448 (tab (part_lines n value g t) t.placed) lines.old))
        × ((i : ℕ) → i < t.placed → Most (part_lines n value g t i) (2 ^ 32)) × Most (part_list n value g t.root) (2 ^ 32) }
{
    let bits = bits_of(n, g);
    for i in 0..t.placed {
        let q = t.parts[i];
        let line = part_line(n, g, &bits, q, value);
        problem_layout::store(lines, eval_rule::PART_AT + eval_rule::PART_LINE * i, &line);
    }
    let q = t.root;
    let last = part_line(n, g, &bits, q, value);
    problem_layout::store(lines, eval_rule::ROOT_AT, &last);
}

// All lines, in place of zeros, for one value of the `every` relation: its literals are the digits of that number. Without an `every` line
// there is one value, 0.
pub fn fill(
    lines: &mut [usize],
    n: usize,
    types: usize,
    members: &[u64],
    ranges: Ranges,
    g: Relations,
    t: Nodes,
    value: usize,
)
    requires { (length lines.old ≡ lines_length) × Most lines.old 0 × (0 < n) × (n ≤ 64) × RelationsFit g × Fits t × (types ≤ 8) × (types ≤ length members.now) × RangesFit n ranges × (value < 256) }
    ensures { Lined n value members.now types ranges.count g t lines.new }
{
    fill_nodes(lines, n, t, ranges);
    fill_parts(lines, n, g, t, value);
    problem_layout::fill_ranges(lines, eval_rule::RANGE_AT, n, types, members);
}

// Whether the rule holds of picks and one value of the `every` relation, by the lines for that value: `facts` and `picks` are the bits of the
// case's facts and of the picks. It is true of the picks where it is so for every value; without an `every` line, where it is so for value 0.
pub fn rule_is_true(lines: &[usize], facts: &[u64], picks: &[u64], n: usize) -> bool
    requires { OfCase n lines.now }
    ensures { (c : Case) (value : ℕ) (F : List Tuple) → Accepted c → are_picks c F ≡ true → LinesOf c n value lines.now → FactsIn (problem_of c) facts.now → PicksAre (problem_of c) picks.now F
        → result ≡ rule_holds c (F ++ every_value c value) }
{
    eval_rule::rule_holds(lines, facts, picks, n)
}

// The same for sixty-four valuations at once, of a case without an `every` line: digit j is the rule's truth by what may be picked, for the tuples that it asks for, and by
// what must be, for their not-tuples. Where the two are one, that is its truth of these picks; else, where it is false, it is false of all
// picks between them.
pub fn true_words(lines: &[usize], facts: &[u64], pos: &[u64], neg: &[u64], n: usize) -> u64
    requires { OfCase n lines.now }
    ensures { (c : Case) (may must : List Tuple) (j : ℕ) → j < 64 → Accepted c → c.question.every ≡ none → LinesOf c n 0 lines.now → FactsIn (problem_of c) facts.now → WordsAre (problem_of c) pos.now neg.now j may must
        → digit result j ≡ tree_by c (by_picks c may must) no_values (tree_of c.question) }
{
    eval_valuations::rule_words(lines, facts, pos, neg, n)
}
