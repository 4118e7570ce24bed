// Writing into a lent table of bytes from a place on, as much as fits. Each function hands back the place after all that it was to write, whether
// it fitted or not, and leaves every byte before and after that as it was; so a writer that is given an empty table measures. Places past the
// table's end count on, up to the largest number, so nothing is asked of the caller.
#![tactic(auto)]

ghost use Rattle.std.specs.Prelude.{◌≡◌, [], ◌∷◌, ◌-◌, length};
ghost use Rattle.definitions.specs.Sheet.Text.{decimal as «decimal_of»};
ghost use Rattle.definitions.specs.Reply.Page.{spaces as «spaces_of», left as «left_of», right as «right_of»};
ghost use Rattle.print_bytes.specs.Emitted.{Emits};

// One byte.
pub fn byte(out: &mut [u8], at: usize, b: u8) -> usize
    ensures { Emits (b ∷ []) out.old at out.new result }
{
    if at < out.len() {
        out[at] = b;
    }
    at.saturating_add(1)
}

// The bytes of s: a word, a name, or a part of another text.
pub fn text(out: &mut [u8], at: usize, s: &[u8]) -> usize
    ensures { Emits s.now out.old at out.new result }
{
    if at < out.len() {
        let fits = s.len().min(out.len() - at);
        print_line::text(out, at, &s[..fits]);
    }
    at.saturating_add(s.len())
}

// So many spaces.
pub fn spaces(out: &mut [u8], at: usize, count: usize) -> usize
    ensures { Emits («spaces_of» count) out.old at out.new result }
{
    let mut next = at;
    for _left in (0..count).rev() {
        next = byte(out, next, 32);
    }
    next
}

// No number of 64 bits has more digits.
const DIGITS: usize = 20;

// A number in decimal.
pub fn decimal(out: &mut [u8], at: usize, k: usize) -> usize
    ensures { Emits («decimal_of» k) out.old at out.new result }
{
    let mut digits = [0u8; DIGITS];
    let count = print_line::decimal(&mut digits, 0, k);
    text(out, at, &digits[..count])
}

// How many digits a number has.
pub fn digits(k: usize) -> usize
    ensures { result ≡ length («decimal_of» k) }
{
    print_line::decimal(&mut [0u8; DIGITS], 0, k)
}

// A text in so many columns, left, then spaces.
pub fn left(out: &mut [u8], at: usize, columns: usize, s: &[u8]) -> usize
    ensures { Emits («left_of» columns s.now) out.old at out.new result }
{
    let next = text(out, at, s);
    spaces(out, next, columns.saturating_sub(s.len()))
}

// A number in so many columns, left.
pub fn left_number(out: &mut [u8], at: usize, columns: usize, k: usize) -> usize
    ensures { Emits («left_of» columns («decimal_of» k)) out.old at out.new result }
{
    let next = decimal(out, at, k);
    spaces(out, next, columns.saturating_sub(digits(k)))
}

// A number in so many columns, right.
pub fn right(out: &mut [u8], at: usize, columns: usize, k: usize) -> usize
    ensures { Emits («right_of» columns («decimal_of» k)) out.old at out.new result }
{
    let next = spaces(out, at, columns.saturating_sub(digits(k)));
    decimal(out, next, k)
}
