// Rows: powers, the values of a row, the weights by which values make a row, and the search in a table of starting numbers.
#![tactic(auto)]

ghost use Rattle.std.specs.Prelude.{◌≡◌, map, ℕ, ◌+◌, ◌*◌, ◌^◌, ◌<◌, ◌≤◌, take, get_or, length};
ghost use Rattle.definitions.specs.Problem.Atoms.{places_of};
ghost use Rattle.definitions.specs.Problem.Actions.{values_in, with_value};
ghost use Rattle.rule_nodes.specs.Tables.{Levels};
ghost use Rattle.rows.specs.Values.{value_in, Within, Most, weight_of};

// n to the power k.
pub fn power(n: usize, k: usize) -> usize
    requires { (0 < n) × (n ^ k < 2 ^ 64) }
    ensures { result ≡ n ^ k }
{
    let mut r: usize = 1;
    for _i in 0..k {
        r = r * n;
    }
    r
}

// The values of a row of the first `width` of the levels, by level.
pub fn values_of(n: usize, levels: [usize; 4], width: usize, row: usize) -> [usize; 4]
    requires n_nonzero { (0 < n) × (width ≤ 4) }
    requires levels { Levels levels }
    ensures { (value_in result ≡ values_in (take width levels) (places_of n width row)) × Within n result }
{
    let mut out = [0usize; 4];
    let mut rest = row;
    for i in (0..width).rev() {
        out[levels[i]] = rest % n;
        rest = rest / n;
    }
    out
}

// The same with x at one level. (Written here and not by the caller: an array that was written by numbers and is then copied whole stalls
// the processor.)
pub fn values_with(
    n: usize,
    levels: [usize; 4],
    width: usize,
    row: usize,
    level: usize,
    x: usize,
) -> [usize; 4]
    requires n_nonzero { (0 < n) × (width ≤ 4) × (level < 4) × (x < n) }
    requires levels { Levels levels }
    ensures { (value_in result ≡ with_value (values_in (take width levels) (places_of n width row)) level x) × Within n result }
{
    let mut out = [0usize; 4];
    let mut rest = row;
    for i in (0..width).rev() {
        out[levels[i]] = rest % n;
        rest = rest / n;
    }
    out[level] = x;
    out
}

// Each number times n.
fn times(w: [usize; 4], n: usize) -> [usize; 4]
    requires { (n ≤ 64) × Most w (2 ^ 32) }
    ensures { result ≡ map (λ (x : ℕ). x * n) w }
{
    [w[0] * n, w[1] * n, w[2] * n, w[3] * n]
}

// By how much a row of the first `width` of the levels grows with the value of each level.
pub fn weights(n: usize, levels: [u8; 4], width: usize) -> [usize; 4]
    requires n_nonzero { (0 < n) × (n ≤ 64) × (width ≤ 4) }
    requires levels { Levels levels }
    ensures { (value_in result ≡ weight_of n (take width levels)) × Most result (65 ^ 4) }
{
    let mut w = [0usize; 4];
    for i in 0..width {
        w = times(w, n);
        let l = levels[i] as usize;
        w[l] += 1;
    }
    w
}

// Of `count` numbers that stand `stride` apart from `at` on, the one that is at most k while the next is above it.
pub fn locate(table: &[usize], at: usize, stride: usize, count: usize, k: usize) -> usize
    requires { (at + stride * count < length table.now) × (get_or table.now at 0 ≤ k) × (k < get_or table.now (at + stride * count) 0) }
    ensures { (result < count) × (get_or table.now (at + stride * result) 0 ≤ k) × (k < get_or table.now (at + stride * (result + 1)) 0) }
{
    let mut low: usize = 0;
    let mut high = count;
    // no count: each turn halves what is left
    while low + 1 < high {
        let mid = low + (high - low) / 2;
        if k < table[at + stride * mid] {
            high = mid;
        } else {
            low = mid;
        }
    }
    low
}
