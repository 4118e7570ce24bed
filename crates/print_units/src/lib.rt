// The elements of a step on its lines (document 02, job 9): units that are never cut, side by side while they fit.
#![tactic(auto)]

ghost use Rattle.std.specs.Prelude.{◌≡◌, List, ◌++◌, ℕ, ◌+◌, ◌-◌, ◌≤◌, ◌<◌, length, take, get_or};
ghost use Rattle.print_line.specs.Lines.{said_by};
ghost use Rattle.print_bytes.specs.Emitted.{Emits};
ghost use Rattle.print_units.specs.Units.{Short, part_text, after, all_units};
ghost use Rattle.print_units.specs.Streams.{filled, further as «further_of», used_after, new_line, streamed, lines_in};

// An element: its label, or its number where it has none.
fn said(out: &mut [u8], at: usize, site: &[u8], labels: &[usize], x: usize) -> usize
    requires { Short site.now labels.now (x + 1) }
    ensures { Emits (said_by site.now labels.now x) out.old at out.new result }
{
    match print_line::label(labels, x) {
        Some(l) => print_bytes::text(out, at, &site[l.from..l.to]),
        None => print_bytes::decimal(out, at, x),
    }
}

// How long that is.
fn said_length(site: &[u8], labels: &[usize], x: usize) -> usize
    requires { Short site.now labels.now (x + 1) }
    ensures { (result ≡ length (said_by site.now labels.now x)) × (result ≤ 20) }
{
    match print_line::label(labels, x) {
        Some(l) => l.to - l.from,
        None => print_bytes::digits(x),
    }
}

// A part by its number, where there is one; and how long that is.
fn part_text(out: &mut [u8], at: usize, part: Option<usize>) -> usize
    ensures { Emits (part_text part) out.old at out.new result }
{
    let Some(number) = part else {
        return at;
    };
    let slash = print_bytes::byte(out, at, 47);
    print_bytes::decimal(out, slash, number)
}

fn part_length(part: Option<usize>) -> usize
    ensures { (result ≡ length (part_text part)) × (result ≤ 21) }
{
    let Some(number) = part else {
        return 0;
    };
    print_bytes::digits(number) + 1
}

// What stands right after an element that `more` others follow: a comma, or the part; and how long that is.
fn after_text(out: &mut [u8], at: usize, more: usize, part: Option<usize>) -> usize
    ensures { (xs : List ℕ) → length xs ≡ more → Emits (after part xs) out.old at out.new result }
{
    if 0 < more {
        return print_bytes::byte(out, at, 44);
    }
    part_text(out, at, part)
}

fn after_length(more: usize, part: Option<usize>) -> usize
    ensures { ((xs : List ℕ) → length xs ≡ more → result ≡ length (after part xs)) × (result ≤ 21) }
{
    if 0 < more {
        return 1;
    }
    part_length(part)
}

// How long a unit is.
fn unit_length(site: &[u8], labels: &[usize], x: usize, more: usize, part: Option<usize>) -> usize
    requires { Short site.now labels.now (x + 1) }
    ensures { ((xs : List ℕ) → length xs ≡ more → result ≡ length (said_by site.now labels.now x ++ after part xs)) × (result ≤ 41) }
{
    said_length(site, labels, x) + after_length(more, part)
}

// The rest of a line of which so many columns are used.
fn fill(out: &mut [u8], at: usize, used: usize) -> usize
    ensures { Emits (filled used) out.old at out.new result }
{
    let next = print_bytes::spaces(out, at, 30usize.saturating_sub(used));
    print_bytes::byte(out, next, 10)
}

// What stands before a unit of so many bytes: nothing where it fits; else the line ends, and the next one's first columns are blank.
fn further(out: &mut [u8], at: usize, used: usize, len: usize) -> usize
    requires { (used ≤ 64) × (len ≤ 64) }
    ensures { Emits («further_of» used len) out.old at out.new result }
{
    if used + len <= 30 {
        return at;
    }
    let next = print_bytes::spaces(out, at, 30usize.saturating_sub(used));
    let ended = print_bytes::byte(out, next, 10);
    print_bytes::spaces(out, ended, 42)
}

// How many columns are used after such a unit.
fn used_after(used: usize, len: usize) -> usize
    requires { (used ≤ 64) × (len ≤ 64) }
    ensures { (result ≡ used_after used len) × (result ≤ 64) }
{
    if used + len <= 30 {
        return used + len;
    }
    len
}

// Whether such a unit begins a further line.
fn new_line(used: usize, len: usize) -> usize
    requires { (used ≤ 64) × (len ≤ 64) }
    ensures { (result ≡ new_line used len) × (result ≤ 1) }
{
    if used + len <= 30 {
        return 0;
    }
    1
}

// A unit of so many bytes, of an element that `more` others follow, on a further line where it does not fit.
fn unit(
    out: &mut [u8],
    at: usize,
    site: &[u8],
    labels: &[usize],
    used: usize,
    len: usize,
    x: usize,
    more: usize,
    part: Option<usize>,
) -> usize
    requires { Short site.now labels.now (x + 1) × (used ≤ 64) × (len ≤ 64) }
    ensures { (xs : List ℕ) → length xs ≡ more → Emits («further_of» used len ++ (said_by site.now labels.now x ++ after part xs)) out.old at out.new result }
{
    let begun = further(out, at, used, len);
    let named = said(out, begun, site, labels, x);
    after_text(out, named, more, part)
}

// The elements of a step and its part, from the column that they begin at to the end of the step's last line.
pub fn units(
    out: &mut [u8],
    at: usize,
    site: &[u8],
    labels: &[usize],
    values: &[usize],
    part: Option<usize>,
) -> usize
    requires { (n : ℕ) × Short site.now labels.now n × ((i : ℕ) → i < length values.now → get_or values.now i 0 < n) }
    ensures { Emits (streamed 0 (all_units (said_by site.now labels.now) part values.now)) out.old at out.new result }
{
    if values.is_empty() {
        let parted = part_text(out, at, part);
        return fill(out, parted, part_length(part));
    }
    let mut used: usize = 0;
    let mut next = at;
    for (j, x) in values.iter().enumerate() {
        let more = values.len() - (j + 1);
        let len = unit_length(site, labels, *x, more, part);
        next = unit(out, next, site, labels, used, len, *x, more, part);
        used = used_after(used, len);
    }
    fill(out, next, used)
}

// How many lines these take.
pub fn lines(site: &[u8], labels: &[usize], values: &[usize], part: Option<usize>) -> usize
    requires { (n : ℕ) × Short site.now labels.now n × ((i : ℕ) → i < length values.now → get_or values.now i 0 < n) }
    ensures { (result ≡ lines_in 0 (all_units (said_by site.now labels.now) part values.now)) × (result ≤ length values.now + 1) }
{
    if values.is_empty() {
        return 1;
    }
    let mut used: usize = 0;
    let mut begun: usize = 0;
    for (j, x) in values.iter().enumerate() {
        let more = values.len() - (j + 1);
        let len = unit_length(site, labels, *x, more, part);
        begun += new_line(used, len);
        used = used_after(used, len);
    }
    begun + 1
}
