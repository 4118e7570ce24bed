// Finding the least picks. A number has a digit for each cell, the first cell's the most significant; the search goes through the numbers
// in order, sixty-four runs of them at a time: one evaluation says in which runs the rule may hold, whatever the cells below pick.
#![tactic(auto)]

ghost use Rattle.std.specs.Prelude.{◌≡◌, ◌&&◌, ℕ, ◌+◌, ◌-◌, ◌*◌, ◌^◌, ◌<◌, ◌≤◌, ltb, length, take};
ghost use Rattle.definitions.specs.Problem.Truth.{Case, are_of_kinds};
ghost use Rattle.definitions.specs.Reply.Finding.{numbered, least_number};
ghost use Rattle.bits.specs.Table.{digit, word as «word_of»};
ghost use Rattle.problem_table.specs.Lines.{Fits, relations_in};
ghost use Rattle.eval_rule.specs.Lines.{agree};
ghost use Rattle.step_picks.specs.Tests.{told};
ghost use Rattle.eval_table.specs.Numbers.{OfCase};
ghost use Rattle.eval_search.specs.Numbers.{pattern_of};
ghost use Rattle.eval_search.specs.Lanes.{number_in, NextLane};
ghost use Rattle.eval_search.specs.Filled.{Filled, CellsIn};
ghost use Rattle.eval_search.specs.Counts.{cells_in, cells_to, words_to, digits_to, Searchable};
ghost use Rattle.eval_search.specs.Steps.{cells_of, run_start, start_of, Sought, Asks, MayHold, Placed, Entered, Stepped};

use problem_table::RelationLine;

// More cells are not searched.
pub const CELLS: usize = 20;

// Words for the picks of so many cells, each `choose` from a word of its own on, and a spare one; and a word for each of their bits.
pub const PICK_WORDS: usize = 21;

const LANE_WORDS: usize = 1344;

// Digit d, below 6, of the numbers from 0 to 63: their lowest six digits.
fn pattern(d: usize) -> u64
    requires { d < 6 }
    ensures { result ≡ pattern_of d }
{
    match d {
        0 => 12297829382473034410,
        1 => 14757395258967641292,
        2 => 17361641481138401520,
        3 => 18374966859414961920,
        4 => 18446462603027742720,
        _ => 18446744069414584320,
    }
}

// Digit d of sixty-four numbers: those from 64 · top on.
fn number_word(top: u64, d: usize) -> u64
    requires { d < 64 }
    ensures { (j : ℕ) → j < 64 → digit result j ≡ digit (top * 2 ^ 6 + j) d }
{
    if d < 6 {
        return pattern(d);
    }
    eval_valuations::spread((top >> (d - 6)) & 1 == 1)
}

// Sixty-four runs of 2 ^ low numbers, one after another: run j begins with (64 · top + j) · 2 ^ low.
#[derive(Clone, Copy)]
struct Lanes {
    top: u64,
    low: usize,
}

// Digit d of the greatest number of each run; or, unless `keeps`, the complement of that of the least.
fn lane_word(lanes: Lanes, d: usize, keeps: bool) -> u64
    requires { d < 64 }
    ensures { (j : ℕ) → j < 64 → digit result j ≡ agree (digit (number_in lanes.top lanes.low keeps j) d) keeps }
{
    if d < lanes.low {
        return eval_valuations::FULL;
    }
    eval_valuations::turned(number_word(lanes.top, d - lanes.low), keeps)
}

// The words of a relation's cells, from word `at` on: that of its first row for digit left − 1, that of each next row for the next lower.
fn fill_rows(words: &mut [u64], at: usize, count: usize, lanes: Lanes, left: usize, keeps: bool)
    requires { (at + count ≤ length words.old) × (count ≤ left) × (left ≤ 64) }
    ensures { Filled (number_in lanes.top lanes.low keeps) left at count keeps words.old words.new }
{
    for row in 0..count {
        words[at + row] = lane_word(lanes, left - 1 - row, keeps);
    }
}

// How many cells a relation has: one that is not of a `choose` line has none.
fn cells_in(line: RelationLine) -> usize
    ensures { result ≡ cells_in line }
{
    if step_picks::is_chosen(line.kind) {
        return step_picks::tuples_in(line);
    }
    0
}

// How many cells there are.
pub fn count_cells(table: &[usize]) -> usize
    requires { Fits table.now }
    ensures { result ≡ cells_to table.now (relations_in table.now) }
{
    let mut sum: usize = 0;
    for r in 0..table[1] {
        let line = problem_table::relation_line(table, r);
        sum += cells_in(line);
    }
    sum
}

// The words of all cells.
fn fill(table: &[usize], words: &mut [u64], cells: usize, lanes: Lanes, keeps: bool)
    requires { Searchable table.now cells × (1344 ≤ length words.old) }
    ensures { CellsIn table.now cells (number_in lanes.top lanes.low keeps) keeps (relations_in table.now) words.new }
{
    let mut word: usize = 0;
    let mut left: usize = cells;
    for r in 0..table[1] {
        let line = problem_table::relation_line(table, r);
        let count = cells_in(line);
        fill_rows(words, 64 * word, count, lanes, left, keeps);
        word += step_picks::words_in(line);
        left -= count;
    }
}

// A relation's rows as bits: row i is picked by digit left − 1 − i of m.
fn row_bits(m: u64, left: usize, count: usize) -> u64
    requires { (count ≤ left) × (left ≤ 20) }
    ensures { result ≡ «word_of» (λ i. ltb i count && digit m (left - 1 - i)) 64 }
{
    let mut w: u64 = 0;
    for i in 0..count {
        w = w * 2 + (m >> (left - count + i)) % 2;
    }
    w
}

// The picks of number m, as words; words past them may be cleared.
pub fn number_picks(table: &[usize], words: &mut [u64], cells: usize, m: u64)
    requires { Searchable table.now cells × (21 ≤ length words.old) }
    ensures { take (words_to table.now (relations_in table.now)) words.new ≡ digits_to table.now cells m (relations_in table.now) }
{
    let mut word: usize = 0;
    let mut left: usize = cells;
    for r in 0..table[1] {
        let line = problem_table::relation_line(table, r);
        let count = cells_in(line);
        words[word] = row_bits(m, left, count);
        word += step_picks::words_in(line);
        left -= count;
    }
}

// Whether the picks of number m are of the declared kinds.
fn keeps_kinds(table: &[usize], cells: usize, m: u64) -> bool
    requires { Searchable table.now cells }
    ensures { (c : Case) → Sought c table.now → result ≡ are_of_kinds c (numbered (cells_of c) m) }
{
    let mut words = [0u64; PICK_WORDS];
    number_picks(table, &mut words, cells, m);
    match step_picks::test_kinds(table, &words) {
        None => true,
        Some(_) => false,
    }
}

// In which of sixty-four runs the rule may hold.
fn may_hold(
    table: &[usize],
    lines: &[usize],
    facts: &[u64],
    n: usize,
    cells: usize,
    lanes: Lanes,
) -> u64
    requires { Searchable table.now cells × OfCase n lines.now }
    ensures { MayHold n table.now lines.now facts.now lanes.top lanes.low result }
{
    let mut pos = [0u64; LANE_WORDS];
    let mut neg = [0u64; LANE_WORDS];
    fill(table, &mut pos, cells, lanes, true);
    fill(table, &mut neg, cells, lanes, false);
    eval_table::true_words(lines, facts, &pos, &neg, n)
}

// The levels of the search: at level k sixty-four runs of 2 ^ (6 · k) numbers each are looked at together.
const LEVELS: usize = 4;

// A place of the search: at its level, the next run to be entered among the sixty-four that `top` counts; all numbers before it are done.
// For this level and each above, `kept` says in which of the runs the rule may hold. `found`: that run is one number, the answer.
#[derive(Clone, Copy)]
struct Spot {
    top: u64,
    lane: usize,
    level: usize,
    found: bool,
    kept: [u64; LEVELS],
}

// The first number of a run.
fn number_at(top: u64, lane: usize, level: usize) -> u64
    requires { (lane ≤ 64) × (level ≤ 4) × (run_start top lane level < 2 ^ 26) }
    ensures { result ≡ run_start top lane level }
{
    (top * 64 + lane as u64) << (6 * level)
}

// The first lane from `from` on that is set, or 64.
fn next_lane(w: u64, from: usize) -> usize
    requires { from ≤ 64 }
    ensures { NextLane w from result }
{
    bits::lowest(w & !bits::mask(from))
}

// The runs of a level, evaluated; none is entered yet.
fn enter(table: &[usize], lines: &[usize], facts: &[u64], n: usize, cells: usize, at: Spot) -> Spot
    requires { Searchable table.now cells × OfCase n lines.now × (at.level ≤ 3) }
    ensures { Entered n table.now lines.now facts.now at result }
{
    let top = at.top;
    let level = at.level;
    let mut kept = at.kept;
    kept[level] = may_hold(
        table,
        lines,
        facts,
        n,
        cells,
        Lanes {
            top,
            low: 6 * level,
        },
    );
    Spot {
        top,
        lane: 0,
        level,
        found: false,
        kept,
    }
}

// One step of the search: runs in which the rule cannot hold are passed over; where none is left, the level above goes on after the run
// that this level was; a run whose least picks break a kind is passed over too; any other is found, if it is one number, or entered.
fn turn(table: &[usize], lines: &[usize], facts: &[u64], n: usize, cells: usize, at: Spot) -> Spot
    requires { Searchable table.now cells × OfCase n lines.now × Placed at × (start_of at < 2 ^ 20) }
    ensures { Stepped n table.now lines.now facts.now at result }
{
    let top = at.top;
    let level = at.level;
    let kept = at.kept;
    let lane = next_lane(kept[level], at.lane);
    if lane == 64 {
        return Spot {
            top: top / 64,
            lane: (top % 64) as usize + 1,
            level: level + 1,
            found: false,
            kept,
        };
    }
    if keeps_kinds(table, cells, number_at(top, lane, level)) {
        if level == 0 {
            return Spot {
                top,
                lane,
                level,
                found: true,
                kept,
            };
        }
        let inner = Spot {
            top: top * 64 + lane as u64,
            lane: 0,
            level: level - 1,
            found: false,
            kept,
        };
        return enter(table, lines, facts, n, cells, inner);
    }
    Spot {
        top,
        lane: lane + 1,
        level,
        found: false,
        kept,
    }
}

// The level whose sixty-four runs have all numbers of so many digits.
fn top_level(cells: usize) -> usize
    requires { cells ≤ 20 }
    ensures { result ≤ 3 }
{
    if cells == 0 {
        return 0;
    }
    (cells - 1) / 6
}

// The least number whose picks are of the declared kinds and make the rule true, cells read as binary digits.
pub fn least_number(
    table: &[usize],
    lines: &[usize],
    facts: &[u64],
    n: usize,
    cells: usize,
) -> Option<u64>
    requires { Searchable table.now cells × OfCase n lines.now }
    ensures { (c : Case) → Asks c n table.now lines.now facts.now → told result ≡ least_number c (cells_of c) }
{
    let first = Spot {
        top: 0,
        lane: 0,
        level: top_level(cells),
        found: false,
        kept: [eval_valuations::FULL; LEVELS],
    };
    let mut at = enter(table, lines, facts, n, cells, first);
    // no count: a step may pass over many runs, or go a level down
    while number_at(at.top, at.lane, at.level) < 1 << cells {
        at = turn(table, lines, facts, n, cells, at);
        if at.found {
            return Some(number_at(at.top, at.lane, at.level));
        }
    }
    None
}
