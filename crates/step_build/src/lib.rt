// Steps built from picks: 16 where the picks are not of the declared kinds, 17 where the rule is false of them; else the picks are
// set in the order of the atoms, the proof begins, every true node atom is proved, and the goal is. Where there is an `every` line, there is
// such a round for each of its values, ended by round-end and marks. Truth is decided by words in a scratch state before anything lent is
// written.
#![tactic(auto)]

ghost use Rattle.std.specs.Prelude.{◌≡◌, true, false, ℕ, ◌+◌, ◌-◌, ◌/◌, ◌^◌, ◌<◌, ◌≤◌, ◌*◌, List, ◌∷◌, ◌++◌, length};
ghost use Rattle.std.proofs.Math.Option.{none};
ghost use Rattle.definitions.specs.Sheet.Relations.{Tuple};
ghost use Rattle.definitions.specs.Sheet.Sheets.{every_number};
ghost use Rattle.definitions.specs.Problem.Truth.{Case, values, every_value, rule_holds, first_of_other_kind};
ghost use Rattle.definitions.specs.Problem.Atoms.{Problem, problem_of, initial as «initial_of», relation_at};
ghost use Rattle.definitions.specs.Problem.Actions.{set, mark_in, mark_out, finish, sets_of, action_number};
ghost use Rattle.definitions.specs.Problem.Built.{marks_after};
ghost use Rattle.laws.specs.Numbers.{IsAction};
ghost use Rattle.bits.specs.Table.{bit};
ghost use Rattle.problem_table.specs.Lines.{Fits, PlacesFit, relation_line, every_in};
ghost use Rattle.problem_table.specs.Numbers.{is_whole, set_row as «row_of»};
ghost use Rattle.step_start.specs.Rows.{atoms_in};
ghost use Rattle.step_picks.specs.Words.{rows_in, PicksAre};
ghost use Rattle.step_prove.specs.Following.{ReadyToFollow, out, one};
ghost use Rattle.step_build.specs.Ways.{follow as «follow_all»};
ghost use Rattle.step_build.specs.Following.{Building, round_at, proved_at, RoundsTo, Holds, Follows};
ghost use Rattle.step_build.specs.Answers.{Gives};
ghost use Rattle.step_build.specs.Starts.{Prepared};
ghost use Rattle.meaning.specs.Means.{Good};
ghost use Rattle.meaning.specs.Planning.{round_now};
ghost use Rattle.step_build.specs.Setting.{set_row, set_rows, set_relation, set_relations, set_count};

use refusal::{Cause, Refusal};

// A tuple is set by the action of this number, if it is picked.
fn set_row(
    state: &mut [u64],
    steps: &mut [u32],
    at: usize,
    table: &[usize],
    relation: usize,
    row: usize,
    number: usize,
    picked: bool,
) -> usize
    requires { Fits table.now × (relation < 18) × (row ≤ 2 ^ 32) × (at < 2 ^ 50) }
    ensures { (result ≤ at + 1) × ((p : Problem) → ReadyToFollow p table.now (length state.old) → IsAction p (set relation row) → number ≡ action_number p (set relation row)
        → set_row p relation picked (out (bit state.old) steps.old at) row ≡ out (bit state.new) steps.new result) }
{
    if picked {
        let a = problem_table::Act::Set(problem_table::TupleAct { relation, row });
        return step_prove::step(state, steps, at, table, a, number);
    }
    at
}

// The row that the set action of offset `off` sets. It is asked for at every offset, so what it takes where types leave tuples out is
// not on the way of a relation that is whole.
fn row_at(table: &[usize], line: problem_table::RelationLine, whole: bool, off: usize) -> usize
    requires { Fits table.now × PlacesFit table.now line × (whole ≡ is_whole line) × (whole ≡ false → off < line.first_count * line.second_count) }
    ensures { result ≡ «row_of» table.now line off }
{
    if whole {
        return off;
    }
    problem_table::set_row(table, line, off)
}

// How many set actions a `choose` has.
fn set_count(line: problem_table::RelationLine, whole: bool) -> usize
    requires { (line.nots ≤ 2 ^ 32) × (line.first_count ≤ 2 ^ 16) × (line.second_count ≤ 2 ^ 16) × (whole ≡ is_whole line) }
    ensures { (result ≡ set_count line) × (result ≤ 2 ^ 32) × (whole ≡ false → result ≡ line.first_count * line.second_count) }
{
    if whole {
        return step_picks::tuples_in(line);
    }
    line.first_count * line.second_count
}

// The next set action to look at, from offset `off` on: where each action sets the row of its own number, words without a pick are passed
// over.
fn next_offset(picks: &[u64], start: usize, off: usize, count: usize, whole: bool) -> usize
    requires { (start ≤ 2 ^ 40) × (off ≤ count) × (count ≤ 2 ^ 32) }
    ensures { (off ≤ result) × (result ≤ count) × ((i : ℕ) → off ≤ i → i < result → (whole ≡ true) × (bit picks.now (start + i) ≡ false)) }
{
    if whole {
        return step_write::next_set(picks, start + off, start + count) - start;
    }
    off
}

// The tuples of a relation that are picked are set, in order, by its set actions; their bits are those of `picks` from bit `start` on.
fn set_rows(
    state: &mut [u64],
    steps: &mut [u32],
    at: usize,
    table: &[usize],
    picks: &[u64],
    relation: usize,
    line: problem_table::RelationLine,
    start: usize,
    whole: bool,
    count: usize,
) -> usize
    requires fits { Fits table.now × (relation < 18) × PlacesFit table.now line × (line.sets ≤ 2 ^ 32) × (start ≤ 2 ^ 40) × (at < 2 ^ 39) }
    requires whole_value { (whole ≡ is_whole line) × (count ≤ 2 ^ 32) × (whole ≡ false → count ≡ line.first_count * line.second_count) }
    ensures { (result ≤ at + count) × ((p : Problem) → ReadyToFollow p table.now (length state.old) → relation < length p.relations → line ≡ relation_line table.now relation
        → count ≡ sets_of p.size p.range (relation_at p relation)
        → set_rows p relation (λ row. bit picks.now (start + row)) (out (bit state.old) steps.old at) 0 count ≡ out (bit state.new) steps.new result) }
{
    let mut k = at;
    let mut off = next_offset(picks, start, 0, count, whole);
    // no count: the next offset may be many words behind this one
    while off < count {
        let row = row_at(table, line, whole, off);
        let picked = problem_table::test(picks, start + row);
        k = set_row(
            state,
            steps,
            k,
            table,
            relation,
            row,
            line.sets + off,
            picked,
        );
        off = next_offset(picks, start, off + 1, count, whole);
    }
    k
}

// The picks of a relation are set, if it is a `choose`.
fn set_relation(
    state: &mut [u64],
    steps: &mut [u32],
    at: usize,
    table: &[usize],
    picks: &[u64],
    relation: usize,
    line: problem_table::RelationLine,
    start: usize,
) -> usize
    requires { Fits table.now × (relation < 18) × PlacesFit table.now line × (line.sets ≤ 2 ^ 32) × (line.nots ≤ 2 ^ 32) × (start ≤ 2 ^ 40) × (at < 2 ^ 39) }
    ensures { (result ≤ at + 2 ^ 32) × ((p : Problem) → ReadyToFollow p table.now (length state.old) → relation < length p.relations → line ≡ relation_line table.now relation
        → set_relation p (λ row. bit picks.now (start + row)) (out (bit state.old) steps.old at) relation ≡ out (bit state.new) steps.new result) }
{
    if step_picks::is_chosen(line.kind) {
        let whole = problem_table::is_whole(line);
        let count = set_count(line, whole);
        return set_rows(
            state, steps, at, table, picks, relation, line, start, whole, count,
        );
    }
    at
}

// All picks are set; the bits of each `choose` start at a new word.
pub fn set_picks(state: &mut [u64], steps: &mut [u32], table: &[usize], picks: &[u64]) -> usize
    requires { Fits table.now }
    ensures { (result ≤ 18 * 2 ^ 32) × ((p : Problem) → ReadyToFollow p table.now (length state.old)
        → set_relations p (rows_in p picks.now) (out (bit state.old) steps.old 0) 0 (length p.relations) ≡ out (bit state.new) steps.new result) }
{
    let mut k: usize = 0;
    let mut word: usize = 0;
    for r in 0..table[1] {
        let line = problem_table::relation_line(table, r);
        k = set_relation(state, steps, k, table, picks, r, line, 64 * word);
        word += step_picks::words_in(line);
    }
    k
}

// The words of a state at the most, those of 1,048,576 atoms; and of those that most problems have, for which no large buffer is cleared.
const FEW: usize = 16;

const SMALL: usize = 64 * FEW;

const WORDS: usize = 1024;

const LARGE: usize = 65536;

const MOST: usize = 16384;

// How many values the relation of the `every` line has, and so how many rounds there are: one where there is no such line. (A case has no
// more than 8 tuples there.)
fn rounds(table: &[usize]) -> usize
    requires { Fits table.now }
    ensures { (0 < result) × (result ≤ 256) × (every_in table.now ≤ 8 → result ≡ 2 ^ every_in table.now) }
{
    let count = problem_table::every_tuples(table);
    if 8 < count {
        return 1;
    }
    1 << count
}

// A tuple goes into the relation of the `every` line.
fn mark_in(state: &mut [u64], steps: &mut [u32], at: usize, table: &[usize], row: usize) -> usize
    requires { Fits table.now × (row < every_in table.now) × (at < 2 ^ 50) }
    ensures { (result ≡ at + 1) × ((p : Problem) (G : Good p) → ReadyToFollow p table.now (length state.old)
        → one p (out (bit state.old) steps.old at) (mark_in (every_number p.source.question) row) ≡ out (bit state.new) steps.new result) }
{
    let last = problem_table::node_line(table, table[2]);
    let relation = table[1] - 1;
    let a = problem_table::Act::MarkIn(problem_table::TupleAct { relation, row });
    step_prove::step(state, steps, at, table, a, last.acts + 1 + row)
}

// A tuple goes out of it.
fn mark_out(state: &mut [u64], steps: &mut [u32], at: usize, table: &[usize], row: usize) -> usize
    requires { Fits table.now × (row < every_in table.now) × (at < 2 ^ 50) }
    ensures { (result ≡ at + 1) × ((p : Problem) (G : Good p) → ReadyToFollow p table.now (length state.old)
        → one p (out (bit state.old) steps.old at) (mark_out (every_number p.source.question) row) ≡ out (bit state.new) steps.new result) }
{
    let last = problem_table::node_line(table, table[2]);
    let count = problem_table::every_tuples(table);
    let relation = table[1] - 1;
    let a = problem_table::Act::MarkOut(problem_table::TupleAct { relation, row });
    step_prove::step(state, steps, at, table, a, last.acts + 1 + count + row)
}

// The marks after the round of value k: the first tuples that are in go out, the one after them goes in.
fn marks(state: &mut [u64], steps: &mut [u32], at: usize, table: &[usize], k: usize) -> usize
    requires { Fits table.now × (at < 2 ^ 49) }
    ensures { (result ≤ at + 2 ^ 32) × ((p : Problem) (G : Good p) → ReadyToFollow p table.now (length state.old)
        → «follow_all» p (out (bit state.old) steps.old at) (marks_after p k) ≡ out (bit state.new) steps.new result) }
{
    let count = problem_table::every_tuples(table);
    let mut n = at;
    let mut m = k;
    for i in 0..count {
        if m % 2 == 0 {
            return mark_in(state, steps, n, table, i);
        }
        n = mark_out(state, steps, n, table, i);
        m = m / 2;
    }
    n
}

// The end of the round of value k: prove-goal, or round-end and the marks.
fn end_round(state: &mut [u64], steps: &mut [u32], at: usize, table: &[usize], k: usize) -> usize
    requires { Fits table.now × (at < 2 ^ 48 + 2 ^ 40) }
    ensures { (result ≤ at + 2 ^ 33) × ((p : Problem) (G : Good p) → ReadyToFollow p table.now (length state.old)
        → «follow_all» p (out (bit state.old) steps.old at) (finish p ∷ marks_after p k) ≡ out (bit state.new) steps.new result) }
{
    let last = problem_table::node_line(table, table[2]);
    let a = problem_table::finish_act(table);
    let ended = step_prove::step(state, steps, at, table, a, last.acts);
    marks(state, steps, ended, table, k)
}

// A round that is not the last: its nodes are filled in and their steps read off, then it ends.
fn write_round(state: &mut [u64], steps: &mut [u32], at: usize, table: &[usize], k: usize) -> usize
    requires { Fits table.now × (at ≤ 2 ^ 48) }
    ensures { (result ≤ at + 2 ^ 39) × ((c : Case) (F : List Tuple) → Building c F table.now (length state.old) → k < values c → bit state.old ≡ round_at c F k
        → «follow_all» (problem_of c) (out (bit state.old) steps.old at) (round_now (problem_of c) (round_at c F k) k) ≡ out (bit state.new) steps.new result) }
{
    let nodes = table[2];
    step_truth::fill_nodes(state, table, 0, nodes);
    let proved = step_write::write_nodes(state, steps, at, table, nodes);
    end_round(state, steps, proved, table, k)
}

// All rounds before round `last`.
fn write_rounds(
    state: &mut [u64],
    steps: &mut [u32],
    at: usize,
    table: &[usize],
    last: usize,
) -> usize
    requires { Fits table.now × (at ≤ 2 ^ 40) × (last < 256) }
    ensures { (result ≤ 2 ^ 48) × ((c : Case) (F : List Tuple) → Building c F table.now (length state.old) → last < values c → bit state.old ≡ round_at c F 0
        → RoundsTo c F (out (bit state.old) steps.old at) (out (bit state.new) steps.new result) last) }
{
    let mut n = at;
    for k in 0..last {
        n = write_round(state, steps, n, table, k);
    }
    n
}

// The last round; `told` knows the truth of its nodes, and becomes the state before its end.
fn write_last(
    told: &[u64],
    state: &mut [u64],
    steps: &mut [u32],
    at: usize,
    table: &[usize],
    k: usize,
) -> usize
    requires { Fits table.now × (at ≤ 2 ^ 48) × (length told.now ≡ length state.old) }
    ensures { (c : Case) (F : List Tuple) → Building c F table.now (length state.old) → k < values c → bit state.old ≡ round_at c F k → bit told.now ≡ proved_at c F k
        → «follow_all» (problem_of c) (out (bit state.old) steps.old at) (round_now (problem_of c) (round_at c F k) k) ≡ out (bit state.new) steps.new result }
{
    let proved = step_write::write_nodes(told, steps, at, table, table[2]);
    let words = told.len();
    problem_table::copy(state, told, words);
    end_round(state, steps, proved, table, k)
}

// The built steps are taken in the state, and written; `told` knows the truth of all nodes in the last round.
fn follow(
    told: &[u64],
    state: &mut [u64],
    steps: &mut [u32],
    table: &[usize],
    picks: &[u64],
) -> usize
    requires { Fits table.now × (length told.now ≡ length state.old) }
    ensures { (c : Case) (F : List Tuple) → Building c F table.now (length state.old) → PicksAre (problem_of c) picks.now F → bit state.old ≡ «initial_of» (problem_of c) → bit told.now ≡ proved_at c F (values c - 1)
        → Follows c F steps.old (out (bit state.new) steps.new result) }
{
    let first = problem_table::relation_line(table, table[1]);
    let picked = set_picks(state, steps, table, picks);
    let begun = step_prove::step(
        state,
        steps,
        picked,
        table,
        problem_table::Act::Begin,
        first.sets,
    );
    let last = rounds(table) - 1;
    let written = write_rounds(state, steps, begun, table, last);
    write_last(told, state, steps, written, table, last)
}

// The same from the initial state on.
fn start_and_follow(
    told: &[u64],
    state: &mut [u64],
    steps: &mut [u32],
    table: &[usize],
    facts: &[u64],
    atoms: usize,
    picks: &[u64],
) -> usize
    requires { Fits table.now × (atoms_in table.now ≡ atoms) × (length state.old ≡ (atoms + 63) / 64) × (length told.now ≡ (atoms + 63) / 64) }
    ensures { (c : Case) (F : List Tuple) (room : ℕ) (P : Prepared c F table.now facts.now picks.now atoms room) → none ≡ first_of_other_kind c F → Holds c F true (bit told.now)
        → Follows c F steps.old (out (bit state.new) steps.new result) }
{
    step_start::initial_state(table, facts, state);
    follow(told, state, steps, table, picks)
}

// The nodes of a round are filled in; whether its end may be taken.
fn prove_round(state: &mut [u64], table: &[usize]) -> bool
    requires { Fits table.now }
    ensures { (c : Case) (F : List Tuple) (k : ℕ) → Building c F table.now (length state.old) → k < values c → bit state.old ≡ round_at c F k
        → (result ≡ rule_holds c (F ++ every_value c k)) × (bit state.new ≡ proved_at c F k) }
{
    step_truth::fill_nodes(state, table, 0, table[2]);
    let a = problem_table::finish_act(table);
    problem_table::may_take(state, table, a)
}

// Whether the rule is true in every round, from the first on; no step is kept.
fn rounds_hold(left: &mut [u64], table: &[usize]) -> bool
    requires { Fits table.now }
    ensures { (c : Case) (F : List Tuple) → Building c F table.now (length left.old) → bit left.old ≡ round_at c F 0 → Holds c F result (bit left.new) }
{
    let last = rounds(table) - 1;
    let mut none = [0u32; 1];
    for k in 0..last {
        if prove_round(left, table) {
            end_round(left, &mut none, 0, table, k);
        } else {
            return false;
        }
    }
    prove_round(left, table)
}

// Whether the rule is true of picks of the declared kinds: they are set in the initial state, the proof begins, and round by round the atoms
// of all nodes are filled in.
fn rule_holds(left: &mut [u64], table: &[usize], facts: &[u64], atoms: usize, picks: &[u64]) -> bool
    requires { Fits table.now × (atoms_in table.now ≡ atoms) × (length left.old ≡ (atoms + 63) / 64) }
    ensures { (c : Case) (F : List Tuple) (room : ℕ) (P : Prepared c F table.now facts.now picks.now atoms room) → none ≡ first_of_other_kind c F → Holds c F result (bit left.new) }
{
    step_start::initial_state(table, facts, left);
    // no step is kept
    let mut none = [0u32; 1];
    set_picks(left, &mut none, table, picks);
    problem_table::take(left, table, problem_table::Act::Begin);
    rounds_hold(left, table)
}

// Steps from picks of the declared kinds. Truth is decided in scratch words; only if the rule is true is what is lent written.
fn build_in(
    left: &mut [u64],
    state: &mut [u64],
    steps: &mut [u32],
    table: &[usize],
    facts: &[u64],
    atoms: usize,
    picks: &[u64],
) -> Result<usize, Refusal>
    requires fits { Fits table.now × (atoms_in table.now ≡ atoms) × (atoms ≤ 2 ^ 20) × ((atoms + 63) / 64 ≤ length state.old) }
    requires left_len { length left.old ≡ (atoms + 63) / 64 }
    ensures { (c : Case) (F : List Tuple) → Prepared c F table.now facts.now picks.now atoms (length steps.old) → none ≡ first_of_other_kind c F
        → Gives c (problem_of c) F state.old steps.old result state.new steps.new }
{
    if rule_holds(left, table, facts, atoms, picks) {
        let words = (atoms + 63) / 64;
        let count = start_and_follow(left, &mut state[..words], steps, table, facts, atoms, picks);
        return Ok(count);
    }
    Err(Cause::RuleFalse.at(0))
}

// The same with so many words of scratch of its own: fewer are cleared where fewer are needed.
fn build_with<const SCRATCH: usize>(
    state: &mut [u64],
    steps: &mut [u32],
    table: &[usize],
    facts: &[u64],
    atoms: usize,
    picks: &[u64],
) -> Result<usize, Refusal>
    requires { Fits table.now × (atoms_in table.now ≡ atoms) × (atoms ≤ 2 ^ 20) × ((atoms + 63) / 64 ≤ SCRATCH) × (SCRATCH ≤ 2 ^ 20) × ((atoms + 63) / 64 ≤ length state.old) }
    ensures { (c : Case) (F : List Tuple) → Prepared c F table.now facts.now picks.now atoms (length steps.old) → none ≡ first_of_other_kind c F
        → Gives c (problem_of c) F state.old steps.old result state.new steps.new }
{
    let words = (atoms + 63) / 64;
    let mut left = [0u64; SCRATCH];
    build_in(&mut left[..words], state, steps, table, facts, atoms, picks)
}

// By the number of atoms.
fn build(
    state: &mut [u64],
    steps: &mut [u32],
    table: &[usize],
    facts: &[u64],
    atoms: usize,
    picks: &[u64],
) -> Result<usize, Refusal>
    requires { Fits table.now × (atoms_in table.now ≡ atoms) × (atoms ≤ 2 ^ 20) × ((atoms + 63) / 64 ≤ length state.old) }
    ensures { (c : Case) (F : List Tuple) → Prepared c F table.now facts.now picks.now atoms (length steps.old) → none ≡ first_of_other_kind c F
        → Gives c (problem_of c) F state.old steps.old result state.new steps.new }
{
    if atoms <= SMALL {
        return build_with::<FEW>(state, steps, table, facts, atoms, picks);
    }
    if atoms <= LARGE {
        return build_with::<WORDS>(state, steps, table, facts, atoms, picks);
    }
    build_with::<MOST>(state, steps, table, facts, atoms, picks)
}

// How many steps are built from picks, from the initial state on, with the state that they leave; or the first `choose` whose picks are not
// of its kind, or that the rule is false.
pub fn start_and_build(
    state: &mut [u64],
    steps: &mut [u32],
    table: &[usize],
    facts: &[u64],
    atoms: usize,
    picks: &[u64],
) -> Result<usize, Refusal>
    requires { Fits table.now × (atoms_in table.now ≡ atoms) × (atoms ≤ 2 ^ 20) × ((atoms + 63) / 64 ≤ length state.old) }
    ensures { (c : Case) (F : List Tuple) → Prepared c F table.now facts.now picks.now atoms (length steps.old)
        → Gives c (problem_of c) F state.old steps.old result state.new steps.new }
{
    if let Some(i) = step_picks::test_kinds(table, picks) {
        return Err(Cause::OtherKind.at(i));
    }
    build(state, steps, table, facts, atoms, picks)
}
