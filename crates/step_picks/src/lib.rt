// Picks as bits in lent words, each `choose` from a new word on: how many words they have, whether they are of the declared kinds, cut
// out of the state that steps leave, and whether a bit is set past those of the tuples.
#![tactic(auto)]

ghost use Rattle.std.specs.Prelude.{◌≡◌, not, ◌&&◌, ◌+◌, ◌-◌, ◌*◌, ◌^◌, ◌<◌, ◌≤◌, length};
ghost use Rattle.std.proofs.lemmas.List.Edits.{sets};
ghost use Rattle.definitions.specs.Lists.{any, position, below, is_in};
ghost use Rattle.definitions.specs.Problem.Atoms.{Problem};
ghost use Rattle.definitions.specs.Problem.Built.{chosen_numbers};
ghost use Rattle.definitions.specs.Reply.Outcome.{picks_length, spare_word};
ghost use Rattle.bits.specs.Table.{bit, num, count as «count_of»};
ghost use Rattle.problem_table.specs.Lines.{table_length, size_in, members_in, PlacesFit, Fits};
ghost use Rattle.problem_table.specs.Of.{Is};
ghost use Rattle.meaning.specs.KindRows.{is_crowded, is_stray};
ghost use Rattle.step_picks.specs.Words.{is_open, words_in, rows_in};
ghost use Rattle.step_picks.specs.Tests.{crowds_by, breaks_by, firsts_in, seconds_in, are_inside, chosen_by, broken_at, told};
ghost use Rattle.step_picks.specs.Copies.{line_words, picks_in, Copied};
ghost use Rattle.step_picks.specs.Spare.{is_spare, spare_in};

use problem_table::RelationLine;

// How many tuples a relation has.
pub fn tuples_in(k: RelationLine) -> usize
    ensures { result ≡ k.nots - k.tuples }
{
    k.nots.saturating_sub(k.tuples)
}

// Whether a kind is that of a `choose`.
pub fn is_chosen(kind: usize) -> bool
    ensures { result ≡ is_open kind }
{
    kind != 0 && kind < 6
}

// How many words its picks have.
pub fn words_in(k: RelationLine) -> usize
    requires { k.nots ≤ 2 ^ 32 }
    ensures { result ≡ words_in k }
{
    if is_chosen(k.kind) {
        let tuples = tuples_in(k);
        return (tuples + 63) / 64;
    }
    0
}

// 1 for a `choose`.
fn chosen(kind: usize) -> usize
    ensures { result ≡ chosen_by kind }
{
    usize::from(is_chosen(kind))
}

// Bit i as a number.
fn digit(words: &[u64], i: usize) -> usize
    ensures { result ≡ num (bit words.now i) }
{
    usize::from(problem_table::test(words, i))
}

// How many of n bits are set that stand `stride` apart, from bit `start` on.
fn tally(picks: &[u64], start: usize, stride: usize, n: usize) -> usize
    requires { (start ≤ 2 ^ 40) × (stride ≤ 64) × (n ≤ 64) }
    ensures { result ≡ «count_of» (λ y. bit picks.now (start + y * stride)) 0 n }
{
    let mut sum: usize = 0;
    for i in 0..n {
        sum += digit(picks, start + i * stride);
    }
    sum
}

// Whether some x has two y, of n each, whose bit is set: x times a plus y times b past bit `start`.
fn crowded(picks: &[u64], start: usize, n: usize, a: usize, b: usize) -> bool
    requires { (start ≤ 2 ^ 39) × (n ≤ 64) × (a ≤ 64) × (b ≤ 64) }
    ensures { result ≡ is_crowded (λ i. bit picks.now (start + i)) n a b }
{
    for x in 0..n {
        if 1 < tally(picks, start + x * a, b, n) {
            return true;
        }
    }
    false
}

// Whether the picks of a relation, from bit `start` on, give a first place two seconds or, of an injective kind, a second two firsts.
fn crowds(picks: &[u64], start: usize, n: usize, kind: usize) -> bool
    requires { (start ≤ 2 ^ 39) × (0 < n) × (n ≤ 64) }
    ensures { result ≡ crowds_by kind n (λ i. bit picks.now (start + i)) }
{
    if kind < 2 {
        return false;
    }
    if 5 < kind {
        return false;
    }
    if crowded(picks, start, n, n, 1) {
        return true;
    }
    if kind < 4 {
        return false;
    }
    crowded(picks, start, n, 1, n)
}

// Whether x is among `count` numbers of the table from place `at` on.
fn among(table: &[usize], at: usize, count: usize, x: usize) -> bool
    requires { (length table.now ≡ table_length) × (at + count ≤ table_length) }
    ensures { result ≡ is_in x (members_in table.now at count) }
{
    for y in &table[at..at + count] {
        if *y == x {
            return true;
        }
    }
    false
}

// Whether the pair of x and y is inside the types of a function kind.
fn inside(table: &[usize], line: RelationLine, x: usize, y: usize) -> bool
    requires { (length table.now ≡ table_length) × PlacesFit table.now line }
    ensures { result ≡ are_inside table.now line x y }
{
    among(table, line.firsts, line.first_count, x)
        && among(table, line.seconds, line.second_count, y)
}

// Whether bit i is set, that of a pair outside the types.
fn stray(picks: &[u64], i: usize, table: &[usize], line: RelationLine, x: usize, y: usize) -> bool
    requires { (length table.now ≡ table_length) × PlacesFit table.now line }
    ensures { result ≡ (bit picks.now i && not (are_inside table.now line x y)) }
{
    problem_table::test(picks, i) && !inside(table, line, x, y)
}

// Whether one of the n pairs with the first place x is picked outside the types; their bits start at bit `start`.
fn row_strays(
    picks: &[u64],
    start: usize,
    n: usize,
    table: &[usize],
    line: RelationLine,
    x: usize,
) -> bool
    requires { (length table.now ≡ table_length) × PlacesFit table.now line × (start ≤ 2 ^ 40) × (n ≤ 64) }
    ensures { result ≡ any (λ y. bit picks.now (start + y) && not (are_inside table.now line x y)) (below n) }
{
    for y in 0..n {
        if stray(picks, start + y, table, line, x, y) {
            return true;
        }
    }
    false
}

// Whether any pair is.
fn some_strays(picks: &[u64], start: usize, n: usize, table: &[usize], line: RelationLine) -> bool
    requires { (length table.now ≡ table_length) × PlacesFit table.now line × (start ≤ 2 ^ 39) × (n ≤ 64) }
    ensures { result ≡ is_stray (λ i. bit picks.now (start + i)) n (firsts_in table.now line) (seconds_in table.now line) }
{
    for x in 0..n {
        if row_strays(picks, start + x * n, n, table, line, x) {
            return true;
        }
    }
    false
}

// Whether the picks of a relation, from bit `start` on, break its kind. Where every tuple may be set, none is outside its types.
fn breaks_kind(picks: &[u64], start: usize, n: usize, table: &[usize], line: RelationLine) -> bool
    requires table_len { (length table.now ≡ table_length) × PlacesFit table.now line × (n ≡ size_in table.now) }
    requires start_bound { (start ≤ 2 ^ 39) × (0 < n) × (n ≤ 64) }
    ensures { result ≡ breaks_by line.kind (firsts_in table.now line) (seconds_in table.now line) n (λ i. bit picks.now (start + i)) }
{
    if crowds(picks, start, n, line.kind) {
        return true;
    }
    if problem_table::is_whole(line) {
        return false;
    }
    some_strays(picks, start, n, table, line)
}

// The index of the first `choose` whose picks are not of the declared kind.
pub fn test_kinds(table: &[usize], picks: &[u64]) -> Option<usize>
    requires { Fits table.now }
    ensures { (p : Problem) → Is p table.now
        → told result ≡ position (broken_at p (rows_in p picks.now)) (chosen_numbers p) }
{
    let n = table[0];
    let mut i: usize = 0;
    let mut word: usize = 0;
    for r in 0..table[1] {
        let line = problem_table::relation_line(table, r);
        if breaks_kind(picks, 64 * word, n, table, line) {
            return Some(i);
        }
        word += words_in(line);
        i += chosen(line.kind);
    }
    None
}

// The tuples of a `choose` that hold, written from word `word` on; of another relation nothing is written.
fn copy_relation(state: &[u64], line: RelationLine, picks: &mut [u64], word: usize)
    requires { (line.tuples ≤ 2 ^ 32) × (line.nots ≤ 2 ^ 32) × (word + words_in line ≤ length picks.old) }
    ensures { picks.new ≡ sets picks.old word (line_words (bit state.now) line) }
{
    let count = words_in(line);
    let tuples = tuples_in(line);
    for j in 0..count {
        picks[word + j] = bits::cut(state, line.tuples + 64 * j, tuples - 64 * j);
    }
}

// How many words the picks of a problem have.
pub fn picks_length(table: &[usize]) -> usize
    requires { Fits table.now }
    ensures lines { result ≡ picks_in table.now }
    ensures picks { (p : Problem) → Is p table.now → result ≡ picks_length p }
{
    let mut sum: usize = 0;
    for r in 0..table[1] {
        let line = problem_table::relation_line(table, r);
        sum += words_in(line);
    }
    sum
}

// The picks of steps that were all taken, written from the state that they leave; words past them stay.
pub fn copy_picks(table: &[usize], state: &[u64], picks: &mut [u64])
    requires fits { Fits table.now }
    requires table_in_bounds { picks_in table.now ≤ length picks.old }
    ensures { Copied table.now state.now picks.old picks.new }
{
    let mut word: usize = 0;
    for r in 0..table[1] {
        let line = problem_table::relation_line(table, r);
        copy_relation(state, line, picks, word);
        word += words_in(line);
    }
}

// Whether a bit is set past those of so many tuples, whose words start with word `word`; they leave bits over in the last one alone.
fn spare_past(picks: &[u64], word: usize, tuples: usize) -> bool
    requires { (word ≤ 2 ^ 32) × (tuples ≤ 2 ^ 32) }
    ensures { result ≡ is_spare picks.now word tuples }
{
    let used = tuples % 64;
    used != 0 && 0 < bits::word_at(picks, word + tuples / 64) >> used
}

// Whether a relation has a spare bit set; only a `choose` has words.
fn has_spare(picks: &[u64], word: usize, line: RelationLine) -> bool
    requires { (word ≤ 2 ^ 32) × (line.nots ≤ 2 ^ 32) }
    ensures { result ≡ spare_in picks.now word line }
{
    is_chosen(line.kind) && spare_past(picks, word, tuples_in(line))
}

// The first word of lent picks that has a spare bit set.
pub fn spare_word(table: &[usize], picks: &[u64]) -> Option<usize>
    requires { Fits table.now }
    ensures { (p : Problem) → Is p table.now → told result ≡ spare_word p picks.now 0 (chosen_numbers p) }
{
    let mut word: usize = 0;
    for r in 0..table[1] {
        let line = problem_table::relation_line(table, r);
        if has_spare(picks, word, line) {
            return Some(word + tuples_in(line) / 64);
        }
        word += words_in(line);
    }
    None
}
