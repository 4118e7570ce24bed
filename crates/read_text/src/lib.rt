// Spans of a text: where a byte first stands, equal spans, decimal numbers and relation names (document 01, "The sheets").
#![tactic(auto)]

ghost use Rattle.std.specs.Prelude.{◌≡◌, ◌+◌, ◌≤◌, ◌<◌, length};
ghost use Rattle.std.proofs.Math.Seq.{slice};
ghost use Rattle.definitions.specs.Lists.{same as sameText};
ghost use Rattle.definitions.specs.Sheet.Text.{number as number_of, is_relation_name};
ghost use Rattle.read_text.specs.Spans.{index_of, is_name_byte, option_of};

// The most bytes of a text.
pub const LIMIT: usize = 1048576;

// The index of the first b in s from index `at` up to `end`, or `end` where there is none. Reading is mostly this, so the loop takes
// four bytes a turn.
pub fn find(s: &[u8], at: usize, end: usize, b: u8) -> usize
    requires { (at ≤ end) × (end ≤ length s.now) }
    ensures { result ≡ at + index_of b (slice at end s.now) }
{
    let mut i = at;
    while 4 <= end - i {
        if s[i] == b {
            return i;
        }
        if s[i + 1] == b {
            return i + 1;
        }
        if s[i + 2] == b {
            return i + 2;
        }
        if s[i + 3] == b {
            return i + 3;
        }
        i += 4;
    }
    for k in i..end {
        if s[k] == b {
            return k;
        }
    }
    end
}

// The length of a span, which ends with the text at the latest.
pub fn span_length(s: &[u8], a: usize, e: usize) -> usize
    ensures { result ≡ length (slice a e s.now) }
{
    e.min(s.len()).saturating_sub(a)
}

// Its bytes.
fn span(s: &[u8], a: usize, e: usize) -> &[u8]
    ensures { result.now ≡ slice a e s.now }
{
    let end = e.min(s.len());
    &s[a.min(end)..end]
}

// Two spans, of two texts, hold the same bytes.
pub fn same_span(s: &[u8], a: usize, e: usize, t: &[u8], b: usize, f: usize) -> bool
    ensures { result ≡ sameText (slice a e s.now) (slice b f t.now) }
{
    span(s, a, e) == span(t, b, f)
}

// The span is the word w.
pub fn word(s: &[u8], a: usize, e: usize, w: &[u8]) -> bool
    ensures { result ≡ sameText (slice a e s.now) w.now }
{
    span(s, a, e) == w
}

// The number that the span writes: 1 to 7 digits, 0 first only where it stands alone.
pub fn number(s: &[u8], at: usize, end: usize) -> Option<u32>
    requires { (at ≤ end) × (end ≤ length s.now) }
    ensures { result ≡ option_of (number_of (slice at end s.now)) }
{
    let digits = span(s, at, end);
    if digits.is_empty() || 7 < digits.len() {
        return None;
    }
    if digits[0] == b'0' && 1 < digits.len() {
        return None;
    }
    let mut v = 0;
    for c in digits {
        if !c.is_ascii_digit() {
            return None;
        }
        v = v * 10 + (*c - b'0') as u32;
    }
    Some(v)
}

// A byte of a relation's name after the first.
fn is_name_byte(c: u8) -> bool
    ensures { result ≡ is_name_byte c }
{
    c.is_ascii_uppercase() || c.is_ascii_digit() || c == b'_'
}

// The span is a relation's name.
pub fn is_relation_name(s: &[u8], at: usize, end: usize) -> bool
    requires { (at ≤ end) × (end ≤ length s.now) }
    ensures { result ≡ is_relation_name (slice at end s.now) }
{
    let [first, others @ ..] = span(s, at, end) else {
        return false;
    };
    if !first.is_ascii_uppercase() || 12 <= others.len() {
        return false;
    }
    others.iter().all(|c| is_name_byte(*c))
}
