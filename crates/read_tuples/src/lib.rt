// Tuples of a `fact` or `pick` line as bits: each relation from a new word on, a tuple's bit at its row; the labels of elements as
// spans of the site's text; the members of types as bits, a word a type; and why a line is refused (7, 19, 9, 18 and 10).
#![tactic(auto)]

ghost use Rattle.std.specs.Prelude.{◌≡◌, List, ◌∷◌, [], ◌++◌, true, ℕ, ◌+◌, ◌-◌, ◌*◌, ◌^◌, ◌≤◌, ◌<◌, length, get_or, set};
ghost use Rattle.std.proofs.Math.Seq.{slice};
ghost use Rattle.definitions.specs.Lists.{all, same as «same_text»};
ghost use Rattle.definitions.specs.Sheet.Text.{is_relation_name};
ghost use Rattle.definitions.specs.Sheet.Sheets.{Label, element_named, element_of, is_in_range};
ghost use Rattle.read_line.specs.Entries.{Fielded, codes_of, element_by, elements_by, list_of};
ghost use Rattle.read_names.specs.Signatures.{with_arrays, types_in};
ghost use Rattle.read_tuples.specs.Labels.{LabelsAre, meant, values, is_number, LabelAdded};
ghost use Rattle.read_tuples.specs.Members.{MemberAdded};
ghost use Rattle.read_tuples.specs.Marks.{InRow, RowBelow, first_word, Arrays, Roomy, Spotted, Added};

use read_line::Places;
use read_names::Signature;
use refusal::Cause;

// A `fact` or `pick` line over n elements: a tuple of the `count` relations from `first` on, named from `name` up to `tab`; its element
// fields, of these numbers, go from tab + 1 up to `end`.
#[derive(Clone, Copy)]
pub struct TupleLine {
    pub first: usize,
    pub count: usize,
    pub n: usize,
    pub name: usize,
    pub tab: usize,
    pub end: usize,
    pub places: Places,
}

// A `member` line over n elements: its type, one of the first `types`, is named from `name` up to `tab`; its element field, of this number,
// goes from tab + 1 up to `end`.
#[derive(Clone, Copy)]
pub struct MemberLine {
    pub types: usize,
    pub n: usize,
    pub name: usize,
    pub tab: usize,
    pub end: usize,
    pub element: u32,
}

// A number below 128 for the name from a to e of s.
fn slot(s: &[u8], a: usize, e: usize) -> usize
    ensures { result < 128 }
{
    let count = read_text::span_length(s, a, e);
    let mut h: usize = 0;
    for i in 0..count {
        h = (h * 33 + usize::from(s[a + i])) % 1048576;
    }
    h * 40503 / 512 % 128
}

// Whether x is an element whose label is the name from a to e of s.
fn has_name(s: &[u8], a: usize, e: usize, n: usize, site: &[u8], labels: &[usize], x: usize) -> bool
    requires { (n ≤ 64) × (length labels.now ≡ 384) }
    ensures { result ≡ true → (ls : List Label) → LabelsAre site.now labels.now n ls → x ≡ meant n (element_named ls (slice a e s.now)) }
{
    if x < n {
        let to = labels[2 * x + 1];
        if 0 < to {
            return read_text::same_span(site, labels[2 * x], to, s, a, e);
        }
    }
    false
}

// The element whose label is the name from a to e of s, or n. The spans of `labels` are those of the labels of 64 elements in the
// site's text, two numbers an element, both 0 where it has none. What a hint says is tested, and behind the hints stands `scan`.
fn element_named(s: &[u8], a: usize, e: usize, n: usize, site: &[u8], labels: &[usize]) -> usize
    requires { (n ≤ 64) × ((ls : List Label) × LabelsAre site.now labels.now n ls) }
    ensures { (ls : List Label) → LabelsAre site.now labels.now n ls → result ≡ meant n (element_named ls (slice a e s.now)) }
{
    let first = slot(s, a, e);
    for k in 0..8 {
        let x = labels[128 + 2 * ((first + k) % 128)];
        if has_name(s, a, e, n, site, labels, x) {
            return x;
        }
    }
    scan(s, a, e, n, site, labels)
}

// Of eight slots from `first` on the first that holds no hint, or the last.
fn free_slot(labels: &[usize], first: usize) -> usize
    requires { (length labels.now ≡ 384) × (first < 128) }
    ensures { result < 128 }
{
    for k in 0..7 {
        if labels[128 + 2 * ((first + k) % 128)] == 0 {
            return (first + k) % 128;
        }
    }
    (first + 7) % 128
}

// A hint where element x stands, whose name has the slot `first`. (The hint 0 is none; `scan` begins with element 0.)
fn hint(labels: &mut [usize], first: usize, x: usize)
    requires { (length labels.old ≡ 384) × (first < 128) }
    ensures { (p : ℕ) × (p < 128) × (labels.new ≡ set labels.old (128 + 2 * p) x) }
{
    let p = free_slot(labels, first);
    labels[128 + 2 * p] = x;
}

// Two spans of `count` bytes hold the same ones. Labels often begin alike, so the last byte is looked at first.
fn alike(site: &[u8], from: usize, to: usize, s: &[u8], a: usize, e: usize, count: usize) -> bool
    requires { (0 < count) × (count ≡ length (slice from to site.now)) × (count ≡ length (slice a e s.now)) }
    ensures { result ≡ «same_text» (slice from to site.now) (slice a e s.now) }
{
    let last = count - 1;
    if site[from + last] != s[a + last] {
        return false;
    }
    read_text::same_span(site, from, to, s, a, e)
}

// The same, by going through the elements.
fn scan(s: &[u8], a: usize, e: usize, n: usize, site: &[u8], labels: &[usize]) -> usize
    requires { (n ≤ 64) × ((ls : List Label) × LabelsAre site.now labels.now n ls) }
    ensures { (ls : List Label) → LabelsAre site.now labels.now n ls → result ≡ meant n (element_named ls (slice a e s.now)) }
{
    let wanted = read_text::span_length(s, a, e);
    if wanted == 0 {
        return n;
    }
    for x in 0..n {
        let from = labels[2 * x];
        let to = labels[2 * x + 1];
        if to - from == wanted {
            if alike(site, from, to, s, a, e, wanted) {
                return x;
            }
        }
    }
    n
}

// What the element field from a to e, of number k, means: that, or the element of its name, or n where the name is nobody's.
fn value(s: &[u8], a: usize, e: usize, k: u32, n: usize, site: &[u8], labels: &[usize]) -> u32
    requires { (n ≤ 64) × ((ls : List Label) × LabelsAre site.now labels.now n ls) }
    ensures { (ls : List Label) → LabelsAre site.now labels.now n ls → result ≡ meant n (element_of ls (element_by (slice a e s.now) k)) }
{
    if k == read_line::NAMED {
        return element_named(s, a, e, n, site, labels) as u32;
    }
    k
}

// The elements that the fields from a to e, of these numbers, mean.
fn values_of(
    s: &[u8],
    a: usize,
    e: usize,
    p: Places,
    n: usize,
    site: &[u8],
    labels: &[usize],
) -> Places
    requires { Fielded s.now a e p × (n ≤ 64) × ((ls : List Label) × LabelsAre site.now labels.now n ls) }
    ensures { (ls : List Label) → LabelsAre site.now labels.now n ls → codes_of result ≡ values n ls (list_of s.now a e p) }
{
    match p {
        Places::One(x) => {
            let u = value(s, a, e, x, n, site, labels);
            Places::One(u)
        }
        Places::Two(x, y) => {
            let t = read_text::find(s, a, e, 9);
            let u = value(s, a, t, x, n, site, labels);
            let v = value(s, t + 1, e, y, n, site, labels);
            Places::Two(u, v)
        }
        Places::Three(x, y, z) => {
            let t = read_text::find(s, a, e, 9);
            let r = read_text::find(s, t + 1, e, 9);
            let u = value(s, a, t, x, n, site, labels);
            let v = value(s, t + 1, r, y, n, site, labels);
            let w = value(s, r + 1, e, z, n, site, labels);
            Places::Three(u, v, w)
        }
    }
}

// None of the fields is a name.
fn all_numbers(p: Places) -> bool
    ensures { result ≡ all is_number (codes_of p) }
{
    match p {
        Places::One(x) => x != read_line::NAMED,
        Places::Two(x, y) => x != read_line::NAMED && y != read_line::NAMED,
        Places::Three(x, y, z) => {
            x != read_line::NAMED && y != read_line::NAMED && z != read_line::NAMED
        }
    }
}

// The same as `values_of`; numbers mean themselves, and their fields are not looked at again.
fn elements(
    s: &[u8],
    a: usize,
    e: usize,
    p: Places,
    n: usize,
    site: &[u8],
    labels: &[usize],
) -> Places
    requires { Fielded s.now a e p × (n ≤ 64) × ((ls : List Label) × LabelsAre site.now labels.now n ls) }
    ensures { (ls : List Label) → LabelsAre site.now labels.now n ls → codes_of result ≡ values n ls (list_of s.now a e p) }
{
    if all_numbers(p) {
        return p;
    }
    values_of(s, a, e, p, n, site, labels)
}

// A field of number k is a name, or an element of n.
fn fits(k: u32, n: usize) -> bool
    ensures { (f : List ℕ) → result ≡ is_in_range n (element_by f k) }
{
    k == read_line::NAMED || (k as usize) < n
}

// All numbers among the elements are below n.
fn all_fit(p: Places, n: usize) -> bool
    ensures { (fs : List (List ℕ)) → length fs ≡ length (codes_of p) → result ≡ all (is_in_range n) (elements_by fs (codes_of p)) }
{
    match p {
        Places::One(x) => fits(x, n),
        Places::Two(x, y) => fits(x, n) && fits(y, n),
        Places::Three(x, y, z) => fits(x, n) && fits(y, n) && fits(z, n),
    }
}

// How many elements there are.
fn count(p: Places) -> usize
    ensures { result ≡ length (codes_of p) }
{
    match p {
        Places::One(_) => 1,
        Places::Two(_, _) => 2,
        Places::Three(_, _, _) => 3,
    }
}

// The row of some places and one more, where all are below n.
fn one_more(f: Option<usize>, x: usize, n: usize) -> Option<usize>
    requires { (n ≤ 64) × RowBelow 4096 f }
    ensures { (xs : List ℕ) → InRow n xs f → InRow n (xs ++ (x ∷ [])) result }
{
    let row = f?;
    if x < n { Some(row * n + x) } else { None }
}

// The row of the elements, where all are below n.
fn row(p: Places, n: usize) -> Option<usize>
    requires { n ≤ 64 }
    ensures { InRow n (codes_of p) result }
{
    match p {
        Places::One(x) => one_more(Some(0), x as usize, n),
        Places::Two(x, y) => {
            let a = one_more(Some(0), x as usize, n);
            one_more(a, y as usize, n)
        }
        Places::Three(x, y, z) => {
            let a = one_more(Some(0), x as usize, n);
            let b = one_more(a, y as usize, n);
            one_more(b, z as usize, n)
        }
    }
}

// The first word of relation i, where relation lo has the first word of all, by the array of the arities.
fn word_of(arity: &[usize], n: usize, lo: usize, i: usize) -> usize
    requires { (n ≤ 64) × (lo ≤ i) × (i ≤ 12) × (12 ≤ length arity.now) × ((j : ℕ) → j < i → get_or arity.now j 0 ≤ 3) }
    ensures { ((g : Signature) → (from to : List ℕ) → result ≡ first_word (with_arrays g from to arity.now) n lo (i - lo)) × (result ≤ 4096 * (i - lo)) }
{
    let mut sum: usize = 0;
    for k in &arity[lo..i] {
        sum += n.pow(*k as u32).div_ceil(64);
    }
    sum
}

// The first word of relation i of a signature.
pub fn first_word(g: Signature, n: usize, lo: usize, i: usize) -> usize
    requires { (n ≤ 64) × (lo ≤ i) × (i ≤ 12) × ((j : ℕ) → j < i → get_or g.arity j 0 ≤ 3) }
    ensures { (result ≡ first_word g n lo (i - lo)) × (result ≤ 4096 * (i - lo)) }
{
    word_of(&g.arity, n, lo, i)
}

// The bit of a line's tuple. The arrays of a signature come as slices, so that no call copies it.
fn spot(
    q: &[u8],
    from: &[usize],
    to: &[usize],
    arity: &[usize],
    s: &[u8],
    site: &[u8],
    labels: &[usize],
    line: TupleLine,
) -> Result<usize, Cause>
    requires { Arrays line.first line.count from.now to.now arity.now × (line.n ≤ 64) × Fielded s.now (line.tab + 1) line.end line.places
        × ((ls : List Label) × LabelsAre site.now labels.now line.n ls) }
    ensures { (ls : List Label) → LabelsAre site.now labels.now line.n ls → (g : Signature)
        → Spotted q.now (with_arrays g from.now to.now arity.now) line.first line.count line.n ls
        (slice line.name line.tab s.now) (list_of s.now (line.tab + 1) line.end line.places) result }
{
    let p = line.places;
    let n = line.n;
    let lo = line.first;
    let m = line.count;
    let a = line.name;
    let t = line.tab;
    let k = count(p);
    let Some(i) = read_names::lookup(q, from, to, arity, lo, m, s, a, t, Some(k)) else {
        return Err(Cause::Unknown);
    };
    let v = elements(s, t + 1, line.end, p, n, site, labels);
    match row(v, n) {
        Some(b) => Ok(word_of(arity, n, lo, i) * 64 + b),
        None if all_fit(p, n) => Err(Cause::BadLabel),
        None => Err(Cause::OutOfRange),
    }
}

// Adds that tuple to the table, or says why not.
pub fn add(
    q: &[u8],
    from: &[usize],
    to: &[usize],
    arity: &[usize],
    s: &[u8],
    site: &[u8],
    labels: &[usize],
    table: &mut [u64],
    line: TupleLine,
) -> Result<(), Cause>
    requires arrays { Arrays line.first line.count from.now to.now arity.now × (line.n ≤ 64)
        × Roomy from.now to.now arity.now line.first line.count line.n (length table.old) }
    requires fielded { Fielded s.now (line.tab + 1) line.end line.places × ((ls : List Label) × LabelsAre site.now labels.now line.n ls) }
    ensures { (ls : List Label) → LabelsAre site.now labels.now line.n ls → (g : Signature)
        → Added q.now (with_arrays g from.now to.now arity.now) line.first line.count line.n ls
        (slice line.name line.tab s.now) (list_of s.now (line.tab + 1) line.end line.places) table.old table.new result }
{
    let b = spot(q, from, to, arity, s, site, labels, line)?;
    if bits::get(table, b) {
        return Err(Cause::Repeated);
    }
    bits::set(table, b);
    Ok(())
}

// Adds a label from the site's text, which begins after the element field from a to t, of number k, and goes up to e, or says why not.
// A field that is a name is a bad label in any case: its element has one, or there is none.
pub fn label(
    s: &[u8],
    k: u32,
    a: usize,
    t: usize,
    e: usize,
    n: usize,
    labels: &mut [usize],
) -> Result<(), Cause>
    requires n_bound { (n ≤ 64) × ((ls : List Label) × LabelsAre s.now labels.old n ls) }
    requires t_lt_e { (t < e) × (e ≤ length s.now) × (is_relation_name (slice (t + 1) e s.now) ≡ true) }
    ensures { LabelAdded s.now n (element_by (slice a t s.now) k) (slice (t + 1) e s.now) labels.old labels.new result }
{
    if k == read_line::NAMED {
        return Err(Cause::BadLabel);
    }
    let x = k as usize;
    if n <= x {
        return Err(Cause::OutOfRange);
    }
    if labels[2 * x + 1] != 0 {
        return Err(Cause::BadLabel);
    }
    if element_named(s, t + 1, e, n, s, labels) < n {
        return Err(Cause::BadLabel);
    }
    labels[2 * x] = t + 1;
    labels[2 * x + 1] = e;
    let first = slot(s, t + 1, e);
    hint(labels, first, x);
    Ok(())
}

// Adds a member from the site's text, whose types have names that are lent, or says why not.
pub fn member(
    q: &[u8],
    from: &[usize],
    to: &[usize],
    s: &[u8],
    labels: &[usize],
    members: &mut [u64],
    line: MemberLine,
) -> Result<(), Cause>
    requires types_bound { (line.types ≤ 8) × (21 ≤ length from.now) × (21 ≤ length to.now) × (line.n ≤ 64) × (length members.old ≡ 8) × (line.tab < line.end) × (line.end ≤ length s.now) }
    requires labels_are { (ls : List Label) × LabelsAre s.now labels.now line.n ls }
    ensures { (ls : List Label) → LabelsAre s.now labels.now line.n ls
        → MemberAdded (types_in q.now from.now to.now line.types) line.n ls (slice line.name line.tab s.now)
        (element_by (slice (line.tab + 1) line.end s.now) line.element) members.old members.new result }
{
    let n = line.n;
    let t = line.tab;
    let k = line.element;
    let Some(j) = read_names::type_named(q, from, to, line.types, s, line.name, t) else {
        return Err(Cause::BadType);
    };
    if !fits(k, n) {
        return Err(Cause::OutOfRange);
    }
    let x = value(s, t + 1, line.end, k, n, s, labels) as usize;
    if n <= x {
        return Err(Cause::BadLabel);
    }
    if bits::get(members, 64 * j + x) {
        return Err(Cause::Repeated);
    }
    bits::set(members, 64 * j + x);
    Ok(())
}
