// The room that a call lends to what it calls: cleared words for a site's facts, a list for the steps of a text, words for the picks of a
// text. Most cases are small, and no more is cleared for them than they need. What is lent goes to a closure, alone or with one or two
// slices of the call's own caller, so that a contract can say what these hold afterwards.
#![tactic(auto)]

ghost use Rattle.std.specs.Prelude.{◌≡◌, false, List, ℕ, ◌*◌, ◌^◌, ◌≤◌, length, replicate};
ghost use Rattle.definitions.specs.Problem.Atoms.{words_for};
ghost use Rattle.bits.specs.Table.{bit};
ghost use Rattle.read_sheets.specs.Reading.{FactsRoom, RoomFor};
ghost use Rattle.open_room.specs.Lends.{TakesOne, ReturnsOne, TakesTwo, ReturnsTwo, TakesThree, ReturnsThree};

// N cleared words, lent to f. They stand here and not in the caller, so that where few are lent no room is made for many.
#[inline(never)]
fn with_words<const N: usize, R, F: FnOnce(&mut [u64]) -> R>(f: F) -> R
    requires few { N ≤ 2 ^ 32 }
    requires takes { TakesOne F.FnOnce f (replicate N 0) }
    ensures { (left : List ℕ) × ReturnsOne F.FnOnce f (replicate N 0) result left }
{
    let mut room = [0u64; N];
    f(&mut room)
}

// The same with a slice that f may write to.
#[inline(never)]
fn with_words_into<const N: usize, T, R, F: FnOnce(&mut [u64], &mut [T]) -> R>(
    lent: &mut [T],
    f: F,
) -> R
    requires few { N ≤ 2 ^ 32 }
    requires takes { TakesTwo F.FnOnce f (replicate N 0) lent.old }
    ensures { (left : List ℕ) × ReturnsTwo F.FnOnce f (replicate N 0) lent.old result left lent.new }
{
    let mut room = [0u64; N];
    f(&mut room, lent)
}

// And with two of them.
#[inline(never)]
fn with_words_into_both<const N: usize, T, U, R, F: FnOnce(&mut [u64], &mut [T], &mut [U]) -> R>(
    one: &mut [T],
    other: &mut [U],
    f: F,
) -> R
    requires few { N ≤ 2 ^ 32 }
    requires takes { TakesThree F.FnOnce f (replicate N 0) one.old other.old }
    ensures { (left : List ℕ) × ReturnsThree F.FnOnce f (replicate N 0) one.old other.old result left one.new other.new }
{
    let mut room = [0u64; N];
    f(&mut room, one, other)
}

// N numbers, all 0, lent to f with a slice that it may write to.
#[inline(never)]
fn with_numbers_into<const N: usize, T, R, F: FnOnce(&mut [u32], &mut [T]) -> R>(
    lent: &mut [T],
    f: F,
) -> R
    requires few { N ≤ 2 ^ 32 }
    requires takes { TakesTwo F.FnOnce f (replicate N 0) lent.old }
    ensures { (left : List ℕ) × ReturnsTwo F.FnOnce f (replicate N 0) lent.old result left lent.new }
{
    let mut room = [0u32; N];
    f(&mut room, lent)
}

// The same with two slices.
#[inline(never)]
fn with_numbers_into_both<const N: usize, T, U, R, F: FnOnce(&mut [u32], &mut [T], &mut [U]) -> R>(
    one: &mut [T],
    other: &mut [U],
    f: F,
) -> R
    requires few { N ≤ 2 ^ 32 }
    requires takes { TakesThree F.FnOnce f (replicate N 0) one.old other.old }
    ensures { (left : List ℕ) × ReturnsThree F.FnOnce f (replicate N 0) one.old other.old result left one.new other.new }
{
    let mut room = [0u32; N];
    f(&mut room, one, other)
}

// Cleared words for the facts of a site, lent to f.
pub fn with_facts<R, F: FnOnce(&mut [u64]) -> R>(site: &[u8], f: F) -> R
    requires { (words : List ℕ) → FactsRoom site.now 64 (length words) → (bit words ≡ λ i. false) → TakesOne F.FnOnce f words }
    ensures { (words : List ℕ) × (left : List ℕ) × FactsRoom site.now 64 (length words) × (bit words ≡ λ i. false) × ReturnsOne F.FnOnce f words result left }
{
    if open_case::is_small(site) {
        with_words::<{ open_case::FEW }, R, F>(f)
    } else {
        with_words::<{ open_case::FACTS }, R, F>(f)
    }
}

// The same with a slice that f may write to.
pub fn with_facts_into<T, R, F: FnOnce(&mut [u64], &mut [T]) -> R>(
    site: &[u8],
    lent: &mut [T],
    f: F,
) -> R
    requires { (words : List ℕ) → FactsRoom site.now 64 (length words) → (bit words ≡ λ i. false) → TakesTwo F.FnOnce f words lent.old }
    ensures { (words : List ℕ) × (left : List ℕ) × FactsRoom site.now 64 (length words) × (bit words ≡ λ i. false) × ReturnsTwo F.FnOnce f words lent.old result left lent.new }
{
    if open_case::is_small(site) {
        with_words_into::<{ open_case::FEW }, T, R, F>(lent, f)
    } else {
        with_words_into::<{ open_case::FACTS }, T, R, F>(lent, f)
    }
}

// The same with two slices that f may write to.
pub fn with_facts_into_both<T, U, R, F: FnOnce(&mut [u64], &mut [T], &mut [U]) -> R>(
    site: &[u8],
    one: &mut [T],
    other: &mut [U],
    f: F,
) -> R
    requires { (words : List ℕ) → FactsRoom site.now 64 (length words) → (bit words ≡ λ i. false) → TakesThree F.FnOnce f words one.old other.old }
    ensures { (words : List ℕ) × (left : List ℕ) × FactsRoom site.now 64 (length words) × (bit words ≡ λ i. false) × ReturnsThree F.FnOnce f words one.old other.old result left one.new other.new }
{
    if open_case::is_small(site) {
        with_words_into_both::<{ open_case::FEW }, T, U, R, F>(one, other, f)
    } else {
        with_words_into_both::<{ open_case::FACTS }, T, U, R, F>(one, other, f)
    }
}

// A list for the steps of a text, lent to f.
pub fn with_list_into<T, R, F: FnOnce(&mut [u32], &mut [T]) -> R>(
    steps: &[u8],
    lent: &mut [T],
    f: F,
) -> R
    requires { (words : List ℕ) → RoomFor steps.now (length words) → TakesTwo F.FnOnce f words lent.old }
    ensures { (words : List ℕ) × (left : List ℕ) × RoomFor steps.now (length words) × ReturnsTwo F.FnOnce f words lent.old result left lent.new }
{
    if steps.len() <= read_sheets::SHORT {
        with_numbers_into::<{ read_sheets::FEW }, T, R, F>(lent, f)
    } else if steps.len() <= read_sheets::LONG {
        with_numbers_into::<{ read_sheets::MANY }, T, R, F>(lent, f)
    } else {
        with_numbers_into::<{ read_sheets::STEPS }, T, R, F>(lent, f)
    }
}

// The same with two slices that f may write to.
pub fn with_list_into_both<T, U, R, F: FnOnce(&mut [u32], &mut [T], &mut [U]) -> R>(
    steps: &[u8],
    one: &mut [T],
    other: &mut [U],
    f: F,
) -> R
    requires { (words : List ℕ) → RoomFor steps.now (length words) → TakesThree F.FnOnce f words one.old other.old }
    ensures { (words : List ℕ) × (left : List ℕ) × RoomFor steps.now (length words) × ReturnsThree F.FnOnce f words one.old other.old result left one.new other.new }
{
    if steps.len() <= read_sheets::SHORT {
        with_numbers_into_both::<{ read_sheets::FEW }, T, U, R, F>(one, other, f)
    } else if steps.len() <= read_sheets::LONG {
        with_numbers_into_both::<{ read_sheets::MANY }, T, U, R, F>(one, other, f)
    } else {
        with_numbers_into_both::<{ read_sheets::STEPS }, T, U, R, F>(one, other, f)
    }
}

// Cleared words for the picks of a text over n elements, lent to f.
pub fn with_picks<R, F: FnOnce(&mut [u64]) -> R>(n: usize, f: F) -> R
    requires few { n ≤ 64 }
    requires takes { (words : List ℕ) → 4 * words_for (n ^ 3) ≤ length words → (bit words ≡ λ i. false) → TakesOne F.FnOnce f words }
    ensures { (words : List ℕ) × (left : List ℕ) × (4 * words_for (n ^ 3) ≤ length words) × (bit words ≡ λ i. false) × ReturnsOne F.FnOnce f words result left }
{
    if n <= open_case::SMALL_SIZE {
        with_words::<{ open_case::FEW_PICKS }, R, F>(f)
    } else {
        with_words::<{ open_case::PICKS }, R, F>(f)
    }
}

// The same with two slices that f may write to.
pub fn with_picks_into_both<T, U, R, F: FnOnce(&mut [u64], &mut [T], &mut [U]) -> R>(
    n: usize,
    one: &mut [T],
    other: &mut [U],
    f: F,
) -> R
    requires few { n ≤ 64 }
    requires takes { (words : List ℕ) → 4 * words_for (n ^ 3) ≤ length words → (bit words ≡ λ i. false) → TakesThree F.FnOnce f words one.old other.old }
    ensures { (words : List ℕ) × (left : List ℕ) × (4 * words_for (n ^ 3) ≤ length words) × (bit words ≡ λ i. false) × ReturnsThree F.FnOnce f words one.old other.old result left one.new other.new }
{
    if n <= open_case::SMALL_SIZE {
        with_words_into_both::<{ open_case::FEW_PICKS }, T, U, R, F>(one, other, f)
    } else {
        with_words_into_both::<{ open_case::PICKS }, T, U, R, F>(one, other, f)
    }
}
