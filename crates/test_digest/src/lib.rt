// The digest SHA-256, by which vectors name what is too long to stand there. Nothing is promised of it but that it runs and ends: a wrong
// digest would be none of the vectors'.
#![tactic(auto)]

ghost use Rattle.std.specs.Prelude.{◌<◌};

const NUMBERS: u64 = 4294967296;

// A number of 32 bits, turned right by k bits.
fn turned(x: u64, k: u64) -> u64
    requires { k < 32 }
{
    ((x >> k) | (x << (32 - k))) % NUMBERS
}

// Two numbers' sum of 32 bits.
fn sum(x: u64, y: u64) -> u64 {
    (x % NUMBERS + y % NUMBERS) % NUMBERS
}

fn wide(b: u8) -> u64 {
    b as u64
}

// Byte i of a text with what is put behind it: a bit, zeros, and in the last four bytes its length in bits.
fn padded(text: &[u8], total: usize, i: usize) -> u64 {
    let n = text.len();
    if i < n {
        return wide(text[i]);
    }
    if i == n {
        return 128;
    }
    if total <= i {
        return 0;
    }
    let left = total - i;
    if left <= 4 {
        return (((n as u64) % 536870912 * 8) >> (8 * (left - 1))) % 256;
    }
    0
}

// The four bytes from byte i on as a number.
fn number(text: &[u8], total: usize, i: usize) -> u64
    requires { i < 1099511627776 }
{
    let a = padded(text, total, i);
    let b = padded(text, total, i + 1);
    let c = padded(text, total, i + 2);
    let d = padded(text, total, i + 3);
    (a % 256 * 256 + b % 256) * 65536 + (c % 256 * 256 + d % 256)
}

// The sixteen numbers of a block, and forty-eight made of them.
fn spread(text: &[u8], total: usize, at: usize) -> [u64; 64]
    requires { at < 549755813888 }
{
    let mut w = [0u64; 64];
    for i in 0..16 {
        w[i] = number(text, total, at + 4 * i);
    }
    for k in 16..64 {
        let early = w[k - 15];
        let late = w[k - 2];
        let low = turned(early, 7) ^ turned(early, 18) ^ (early >> 3);
        let high = turned(late, 17) ^ turned(late, 19) ^ (late >> 10);
        w[k] = sum(sum(w[k - 16], low), sum(w[k - 7], high));
    }
    w
}

fn keys() -> [u64; 64] {
    [
        1116352408, 1899447441, 3049323471, 3921009573, 961987163, 1508970993, 2453635748,
        2870763221, 3624381080, 310598401, 607225278, 1426881987, 1925078388, 2162078206,
        2614888103, 3248222580, 3835390401, 4022224774, 264347078, 604807628, 770255983,
        1249150122, 1555081692, 1996064986, 2554220882, 2821834349, 2952996808, 3210313671,
        3336571891, 3584528711, 113926993, 338241895, 666307205, 773529912, 1294757372, 1396182291,
        1695183700, 1986661051, 2177026350, 2456956037, 2730485921, 2820302411, 3259730800,
        3345764771, 3516065817, 3600352804, 4094571909, 275423344, 430227734, 506948616, 659060556,
        883997877, 958139571, 1322822218, 1537002063, 1747873779, 1955562222, 2024104815,
        2227730452, 2361852424, 2428436474, 2756734187, 3204031479, 3329325298,
    ]
}

// A digest on its way: eight numbers of 32 bits.
#[derive(Clone, Copy)]
pub struct Digest {
    pub a: u64,
    pub b: u64,
    pub c: u64,
    pub d: u64,
    pub e: u64,
    pub f: u64,
    pub g: u64,
    pub h: u64,
}

// One of the sixty-four turns of a block.
fn mixed(x: Digest, key: u64, word: u64) -> Digest {
    let high = turned(x.e, 6) ^ turned(x.e, 11) ^ turned(x.e, 25);
    let chosen = (x.e & x.f) ^ ((4294967295 ^ x.e) & x.g);
    let first = sum(sum(sum(x.h, high), sum(chosen, key)), word);
    let low = turned(x.a, 2) ^ turned(x.a, 13) ^ turned(x.a, 22);
    let second = sum(low, (x.a & x.b) ^ (x.a & x.c) ^ (x.b & x.c));
    Digest {
        a: sum(first, second),
        b: x.a,
        c: x.b,
        d: x.c,
        e: sum(x.d, first),
        f: x.e,
        g: x.f,
        h: x.g,
    }
}

// Two digests put together.
fn joined(x: Digest, y: Digest) -> Digest {
    Digest {
        a: sum(x.a, y.a),
        b: sum(x.b, y.b),
        c: sum(x.c, y.c),
        d: sum(x.d, y.d),
        e: sum(x.e, y.e),
        f: sum(x.f, y.f),
        g: sum(x.g, y.g),
        h: sum(x.h, y.h),
    }
}

// A block, from byte `at` on.
fn block(start: Digest, text: &[u8], total: usize, at: usize) -> Digest
    requires { at < 549755813888 }
{
    let w = spread(text, total, at);
    let k = keys();
    let mut x = start;
    for i in 0..64 {
        x = mixed(x, k[i], w[i]);
    }
    joined(x, start)
}

// The digest of a text; of one of more than 2^28 bytes, what a digest begins with.
pub fn sha256(text: &[u8]) -> Digest {
    let mut x = Digest {
        a: 1779033703,
        b: 3144134277,
        c: 1013904242,
        d: 2773480762,
        e: 1359893119,
        f: 2600822924,
        g: 528734635,
        h: 1541459225,
    };
    let count = text.len();
    if 268435456 < count {
        return x;
    }
    let blocks = (count + 8) / 64 + 1;
    for i in 0..blocks {
        x = block(x, text, blocks * 64, i * 64);
    }
    x
}
