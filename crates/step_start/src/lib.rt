// The initial state of a grounded problem, written into a lent table of words.
#![tactic(auto)]

ghost use Rattle.std.specs.Prelude.{◌≡◌, ℕ, ◌+◌, ◌*◌, ◌^◌, ◌<◌, ◌≤◌, length};
ghost use Rattle.definitions.specs.Problem.Atoms.{words_for};
ghost use Rattle.bits.specs.Table.{digit, bit, paste, turned};
ghost use Rattle.problem_table.specs.Lines.{relations_in, Fits};
ghost use Rattle.step_start.specs.Rows.{built_in_at, rows_in, free_in, tuples_put, relation_put, RelationRoom, words_in, relations_put, Room, atoms_in};
ghost use Rattle.step_start.specs.Initial.{Begun};

use problem_table::RelationLine;

// What a built-in relation says of the n rows from row `row` on, which are those of x where it has two places. With one place only
// the first n rows are an element's: in later words the bit stands past the n that count.
fn built_in_word(n: usize, r: usize, x: usize, row: usize) -> u64
    requires { (r < 5) × (row ≡ x * n) × (n ≤ 64) × (0 < n) × (x ≤ 2 ^ 32) × (row ≤ 2 ^ 32) }
    ensures { (y : ℕ) → y < n → digit result y ≡ built_in_at n r (row + y) }
{
    if r == 0 {
        return bits::single(x);
    }
    if r == 1 {
        return !bits::mask((x + 1).min(64));
    }
    if r == 2 {
        return bits::single(x + 1);
    }
    if r == 3 {
        return bits::single(row);
    }
    bits::single(row + (n - 1))
}

// How many tuples a relation has.
fn rows(k: RelationLine) -> usize
    ensures { result ≡ rows_in k }
{
    k.nots.saturating_sub(k.tuples)
}

// How many free atoms a relation has: an element each for kinds 2 to 5, and once more for 4 and 5.
fn free(n: usize, kind: usize) -> usize
    requires { n ≤ 64 }
    ensures { result ≡ free_in n kind }
{
    if kind < 2 {
        return 0;
    }
    if kind < 4 {
        return n;
    }
    if 5 < kind {
        return 0;
    }
    2 * n
}

// The `count` bits from bit `to` on become what a built-in relation says of its rows, or the opposites.
fn put_built_in(state: &mut [u64], to: usize, count: usize, n: usize, r: usize, flip: bool)
    requires { (r < 5) × (n ≤ 64) × (0 < n) × (to ≤ 2 ^ 32) × (count ≤ 2 ^ 32) }
    ensures { to + count ≤ 64 * length state.old
        → bit state.new ≡ paste (bit state.old) to (λ i. turned flip (built_in_at n r i)) 0 count }
{
    let mut x: usize = 0;
    for row in (0..count).step_by(n) {
        let c = (count - row).min(n);
        bits::store(
            state,
            to + row,
            c,
            bits::turn(built_in_word(n, r, x, row), flip),
        );
        x += 1;
    }
}

// Of each tuple of a relation, it or its not-tuple holds while nothing is picked: a built-in one by its meaning, one of a `rel` by its
// bit among the facts, whose words begin with word `first`, and none of a `choose` or `every` line, whose tuples' bits are clear already.
fn put_tuples(state: &mut [u64], facts: &[u64], n: usize, r: usize, k: RelationLine, first: usize)
    requires { (0 < n) × (n ≤ 64) × (first ≤ 2 ^ 32) × (k.tuples ≤ 2 ^ 32) × (k.nots ≤ 2 ^ 32) }
    ensures { k.nots + rows_in k ≤ 64 * length state.old
        → bit state.new ≡ tuples_put facts.now n r k first (rows_in k) (bit state.old) }
{
    let count = rows(k);
    if count == 0 {
        return;
    }
    if r < 5 {
        put_built_in(state, k.tuples, count, n, r, false);
        put_built_in(state, k.nots, count, n, r, true);
        return;
    }
    if k.kind == 0 {
        bits::copy(state, k.tuples, facts, 64 * first, count, false);
        bits::copy(state, k.nots, facts, 64 * first, count, true);
        return;
    }
    bits::set_range(state, k.nots, count);
}

// The atoms of a relation.
fn put_relation(state: &mut [u64], facts: &[u64], table: &[usize], r: usize, first: usize)
    requires { Fits table.now × (r < 18) × (first ≤ 2 ^ 32) }
    ensures { RelationRoom table.now (length state.old) r
        → bit state.new ≡ relation_put facts.now table.now r first (bit state.old) }
{
    let n = table[0];
    let k = problem_table::relation_line(table, r);
    put_tuples(state, facts, n, r, k, first);
    let count = free(n, k.kind);
    bits::set_range(state, k.free, count);
}

// How many words of facts a relation has; a built-in one has none.
fn words(table: &[usize], r: usize) -> usize
    requires { Fits table.now × (r < 18) }
    ensures { result ≡ words_in table.now r }
{
    if r < 5 {
        return 0;
    }
    let k = problem_table::relation_line(table, r);
    (rows(k) + 63) / 64
}

// The atoms of all relations.
fn put_relations(state: &mut [u64], facts: &[u64], table: &[usize])
    requires { Fits table.now }
    ensures { Room table.now (length state.old)
        → bit state.new ≡ relations_put facts.now table.now (relations_in table.now) (bit state.old) }
{
    let count = table[1];
    let mut first: usize = 0;
    for r in 0..count {
        put_relation(state, facts, table, r, first);
        first += words(table, r);
    }
}

// The initial state; words past those that it needs stay.
pub fn initial_state(table: &[usize], facts: &[u64], state: &mut [u64])
    requires fits { Fits table.now }
    requires table_in_bounds { words_for (atoms_in table.now) ≤ length state.old }
    ensures { Begun table.now facts.now state.old state.new }
{
    let end = problem_table::node_line(table, table[2]);
    let count = problem_table::every_tuples(table);
    bits::fill(state, (end.atoms + 3 * count + 63) / 64);
    problem_table::raise(state, 0);
    put_relations(state, facts, table);
}
