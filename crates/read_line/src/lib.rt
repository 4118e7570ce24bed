// What a line of any sheet says: its record word and the fields after it (document 01, "The sheets").
#![tactic(auto)]

ghost use Rattle.std.specs.Prelude.{◌≡◌, [], ◌∷◌, ℕ, ◌+◌, ◌≤◌, ◌<◌, IfSome, length};
ghost use Rattle.std.proofs.Math.Seq.{slice};
ghost use Rattle.definitions.specs.Sheet.Text.{split};
ghost use Rattle.definitions.specs.Sheet.Sheets.{choose_of, label_of, member_of, with_two, entry as entry_of};
ghost use Rattle.read_text.specs.Spans.{option_of};
ghost use Rattle.read_line.specs.Entries.{OneField, OneNumber, TwoFields, NameAndArity, Named, arity_to, code_of, codes, consed, up_to, KindNamed, made, Says, Tells, TellsAfter, TellsAt, InText, Reads, StepReads};

// An element field that is a name has this number: no number has eight digits.
pub const NAMED: u32 = 10000000;

// One to three elements, by their numbers.
#[derive(Clone, Copy)]
pub enum Places {
    One(u32),
    Two(u32, u32),
    Three(u32, u32, u32),
}

// A record: names and the rule as spans of the text, a kind by its number. A label's element field is a span too, and after the tab
// that ends it the label goes up to the line's end; so do the element fields of a fact or a pick after its name, and that of a member
// after its type. A chosen relation's types are a span and, after the tab that ends it, another, which goes up to 0 where there are none.
// A line that is no record has a variant of its own, so that the readers of a sheet match it beside the records that it takes.
#[derive(Clone, Copy)]
pub enum Entry {
    Wrong,
    Rel(usize, usize, u32),
    Typed(usize, usize),
    Choose(usize, usize, u32, u32, usize, usize, usize),
    Every(usize, usize, u32),
    Rule(usize, usize),
    Size(u32),
    Label(u32, usize, usize, usize),
    Member(usize, usize, u32, usize),
    Fact(usize, usize, usize, Places),
    Pick(usize, usize, usize, Places),
    Step(u32),
}

// A line's record, and where the next line begins.
#[derive(Clone, Copy)]
pub struct Read {
    pub entry: Entry,
    pub next: usize,
}

// The record words.
#[derive(Clone, Copy)]
enum Word {
    Rel,
    Typed,
    Choose,
    Every,
    Rule,
    Size,
    Label,
    Member,
    Fact,
    Pick,
    Step,
}

// The kinds that have a word, each by its number in an entry.
#[derive(Clone, Copy)]
enum Kind {
    Fun = 2,
    PFun = 3,
    Inj = 4,
    PInj = 5,
}

// The span is one field.
fn one(s: &[u8], a: usize, e: usize) -> bool
    requires { (a ≤ e) × (e ≤ length s.now) }
    ensures { OneField s.now a e result }
{
    read_text::find(s, a, e, 9) == e
}

// The number that the span is, if it is one field.
fn one_number(s: &[u8], a: usize, e: usize) -> Option<u32>
    requires { (a ≤ e) × (e ≤ length s.now) }
    ensures { OneNumber s.now a e result }
{
    if one(s, a, e) {
        read_text::number(s, a, e)
    } else {
        None
    }
}

// The place of the tab of a span of two fields.
fn two(s: &[u8], a: usize, e: usize) -> Option<usize>
    requires { (a ≤ e) × (e ≤ length s.now) }
    ensures { TwoFields s.now a e result }
{
    let t = read_text::find(s, a, e, 9);
    if t == e {
        return None;
    }
    let u = read_text::find(s, t + 1, e, 9);
    if u < e {
        return None;
    }
    Some(t)
}

// The arity that the span writes, of no more than `most` places.
fn arity(s: &[u8], a: usize, e: usize, most: u32) -> Option<u32>
    requires { (a ≤ e) × (e ≤ length s.now) }
    ensures is { result ≡ option_of (arity_to most (slice a e s.now)) }
    ensures within { IfSome result (λ k. (1 ≤ k) × (k ≤ most)) }
{
    let k = read_text::number(s, a, e)?;
    if k < 1 {
        return None;
    }
    if most < k {
        return None;
    }
    Some(k)
}

// Where the name ends and the arity after it, of no more than `most` places, where the span is these two fields.
fn name_and_arity(s: &[u8], a: usize, e: usize, most: u32) -> Option<(usize, u32)>
    requires { (a ≤ e) × (e ≤ length s.now) }
    ensures { NameAndArity s.now a e most result }
{
    let t = two(s, a, e)?;
    let k = arity(s, t + 1, e, most)?;
    Some((t, k))
}

// The kind that the span names.
fn kind_word(s: &[u8], a: usize, e: usize) -> Option<Kind>
    requires { (a ≤ e) × (e ≤ length s.now) }
    ensures { KindNamed (slice a e s.now) result }
{
    if read_text::word(s, a, e, b"Fun") {
        return Some(Kind::Fun);
    }
    if read_text::word(s, a, e, b"PFun") {
        return Some(Kind::PFun);
    }
    if read_text::word(s, a, e, b"Inj") {
        return Some(Kind::Inj);
    }
    if read_text::word(s, a, e, b"PInj") {
        return Some(Kind::PInj);
    }
    None
}

// The record word that the span is. Most lines are facts or picks.
fn record_word(s: &[u8], a: usize, e: usize) -> Option<Word>
    requires { (a ≤ e) × (e ≤ length s.now) }
    ensures { Says (slice a e s.now) result }
{
    if read_text::word(s, a, e, b"fact") {
        return Some(Word::Fact);
    }
    if read_text::word(s, a, e, b"pick") {
        return Some(Word::Pick);
    }
    if read_text::word(s, a, e, b"rel") {
        return Some(Word::Rel);
    }
    if read_text::word(s, a, e, b"type") {
        return Some(Word::Typed);
    }
    if read_text::word(s, a, e, b"choose") {
        return Some(Word::Choose);
    }
    if read_text::word(s, a, e, b"rule") {
        return Some(Word::Rule);
    }
    if read_text::word(s, a, e, b"every") {
        return Some(Word::Every);
    }
    if read_text::word(s, a, e, b"size") {
        return Some(Word::Size);
    }
    if read_text::word(s, a, e, b"label") {
        return Some(Word::Label);
    }
    if read_text::word(s, a, e, b"member") {
        return Some(Word::Member);
    }
    if read_text::word(s, a, e, b"step") {
        return Some(Word::Step);
    }
    None
}

// The two fields after `choose`, parted by the tab at t: a name, then a function kind or an arity.
fn choose_untyped(s: &[u8], a: usize, t: usize, e: usize) -> Option<Entry>
    requires { (a ≤ t) × (t < e) × (e ≤ length s.now) }
    ensures { Tells s.now (choose_of (slice a t s.now ∷ slice (t + 1) e s.now ∷ [])) result }
{
    match kind_word(s, t + 1, e) {
        Some(kind) => Some(Entry::Choose(a, t, 2, kind as u32, 0, 0, 0)),
        None => {
            let k = arity(s, t + 1, e, 3)?;
            Some(Entry::Choose(a, t, k, 1, 0, 0, 0))
        }
    }
}

// The fields after `choose` where there are more than two; the first two end at t and u. Only a function kind has types, and two of them.
fn choose_typed(s: &[u8], a: usize, t: usize, u: usize, e: usize) -> Option<Entry>
    requires { (a ≤ t) × (t < u) × (u < e) × (e ≤ length s.now) }
    ensures { Tells s.now (choose_of (slice a t s.now ∷ slice (t + 1) u s.now ∷ split 9 (slice (u + 1) e s.now))) result }
{
    let kind = kind_word(s, t + 1, u)?;
    let v = two(s, u + 1, e)?;
    Some(Entry::Choose(a, t, 2, kind as u32, u + 1, v, e))
}

// The fields after `choose`.
fn choose_entry(s: &[u8], a: usize, e: usize) -> Option<Entry>
    requires { (a ≤ e) × (e ≤ length s.now) }
    ensures { Tells s.now (choose_of (split 9 (slice a e s.now))) result }
{
    let t = read_text::find(s, a, e, 9);
    if t == e {
        return None;
    }
    let u = read_text::find(s, t + 1, e, 9);
    if u == e {
        return choose_untyped(s, a, t, e);
    }
    choose_typed(s, a, t, u, e)
}

// The number of an element field: its own, or that of a name.
fn element(s: &[u8], a: usize, e: usize) -> Option<u32>
    requires { (a ≤ e) × (e ≤ length s.now) }
    ensures { result ≡ option_of (code_of (slice a e s.now)) }
{
    match read_text::number(s, a, e) {
        Some(k) => Some(k),
        None => {
            if read_text::is_relation_name(s, a, e) {
                Some(NAMED)
            } else {
                None
            }
        }
    }
}

// The fields after `label`.
fn label_entry(s: &[u8], a: usize, e: usize) -> Option<Entry>
    requires { (a ≤ e) × (e ≤ length s.now) }
    ensures { Tells s.now (with_two label_of (split 9 (slice a e s.now))) result }
{
    let t = two(s, a, e)?;
    if !read_text::is_relation_name(s, t + 1, e) {
        return None;
    }
    let k = element(s, a, t)?;
    Some(Entry::Label(k, a, t, e))
}

// The fields after `member`.
fn member_entry(s: &[u8], a: usize, e: usize) -> Option<Entry>
    requires { (a ≤ e) × (e ≤ length s.now) }
    ensures { Tells s.now (with_two member_of (split 9 (slice a e s.now))) result }
{
    let t = two(s, a, e)?;
    let k = element(s, t + 1, e)?;
    Some(Entry::Member(a, t, k, e))
}

// The third element.
fn last(s: &[u8], a: usize, e: usize, x: u32, y: u32) -> Option<Places>
    requires { (a ≤ e) × (e ≤ length s.now) }
    ensures { codes result ≡ consed x (consed y (up_to 1 (split 9 (slice a e s.now)))) }
{
    let t = read_text::find(s, a, e, 9);
    let z = element(s, a, t)?;
    if t < e {
        return None;
    }
    Some(Places::Three(x, y, z))
}

// The second element, and the third if there is one.
fn more(s: &[u8], a: usize, e: usize, x: u32) -> Option<Places>
    requires { (a ≤ e) × (e ≤ length s.now) }
    ensures { codes result ≡ consed x (up_to 2 (split 9 (slice a e s.now))) }
{
    let t = read_text::find(s, a, e, 9);
    let y = element(s, a, t)?;
    if t < e {
        return last(s, t + 1, e, x, y);
    }
    Some(Places::Two(x, y))
}

// One to three elements.
fn first(s: &[u8], a: usize, e: usize) -> Option<Places>
    requires { (a ≤ e) × (e ≤ length s.now) }
    ensures { codes result ≡ up_to 3 (split 9 (slice a e s.now)) }
{
    let t = read_text::find(s, a, e, 9);
    let x = element(s, a, t)?;
    if t < e {
        return more(s, t + 1, e, x);
    }
    Some(Places::One(x))
}

// Where the name after `fact` or `pick` ends, and the elements after it.
fn name_first(s: &[u8], a: usize, e: usize) -> Option<(usize, Places)>
    requires { (a ≤ e) × (e ≤ length s.now) }
    ensures { Named s.now a e result }
{
    let t = read_text::find(s, a, e, 9);
    if t == e {
        return None;
    }
    let p = first(s, t + 1, e)?;
    Some((t, p))
}

// What the fields from a up to e make after a record word.
fn after_word(s: &[u8], a: usize, e: usize, word: Word) -> Option<Entry>
    requires { (a ≤ e) × (e ≤ length s.now) }
    ensures { TellsAfter s.now word a (made word (split 9 (slice a e s.now))) result }
{
    match word {
        Word::Rel => {
            let (t, k) = name_and_arity(s, a, e, 3)?;
            Some(Entry::Rel(a, t, k))
        }
        Word::Every => {
            let (t, k) = name_and_arity(s, a, e, 2)?;
            Some(Entry::Every(a, t, k))
        }
        Word::Typed => {
            if one(s, a, e) {
                Some(Entry::Typed(a, e))
            } else {
                None
            }
        }
        Word::Rule => {
            if one(s, a, e) {
                Some(Entry::Rule(a, e))
            } else {
                None
            }
        }
        Word::Size => {
            let n = one_number(s, a, e)?;
            Some(Entry::Size(n))
        }
        Word::Step => {
            let k = one_number(s, a, e)?;
            Some(Entry::Step(k))
        }
        Word::Fact => {
            let (t, p) = name_first(s, a, e)?;
            Some(Entry::Fact(a, t, e, p))
        }
        Word::Pick => {
            let (t, p) = name_first(s, a, e)?;
            Some(Entry::Pick(a, t, e, p))
        }
        Word::Choose => choose_entry(s, a, e),
        Word::Label => label_entry(s, a, e),
        Word::Member => member_entry(s, a, e),
    }
}

// The record that the ended line from a up to e is.
pub fn record(s: &[u8], a: usize, e: usize) -> Option<Entry>
    requires { (a ≤ e) × (e ≤ length s.now) }
    ensures { TellsAt s.now a (entry_of (split 9 (slice a e s.now))) result }
{
    let t = read_text::find(s, a, e, 9);
    if t == e {
        return None;
    }
    let word = record_word(s, a, t)?;
    after_word(s, t + 1, e, word)
}

// What the first line from `at` on says, whatever its record, and where the next one begins.
fn any_line(s: &[u8], at: usize) -> Read
    requires { at < length s.now }
    ensures { (at < result.next) × (result.next ≤ length s.now) × Reads s.now at result.next result.entry × InText s.now at result.entry }
{
    let n = s.len();
    let e = read_text::find(s, at, n, 10);
    if e == n {
        return Read {
            entry: Entry::Wrong,
            next: n,
        };
    }
    Read {
        entry: record(s, at, e).unwrap_or(Entry::Wrong),
        next: e + 1,
    }
}

// The number of a good `step` line at `at`, by its first bytes and its digits alone, and where the next line begins.
fn step_line(s: &[u8], at: usize) -> Option<(u32, usize)>
    requires { at < length s.now }
    ensures { StepReads s.now at result }
{
    let n = s.len();
    if n - at < 7 || !read_text::word(s, at, at + 5, b"step\t") {
        return None;
    }
    let e = read_text::find(s, at + 5, n, 10);
    if e == n {
        return None;
    }
    let k = read_text::number(s, at + 5, e)?;
    Some((k, e + 1))
}

// What the first line from `at` on says, and where the next one begins.
pub fn line(s: &[u8], at: usize) -> Read
    requires { at < length s.now }
    ensures { (at < result.next) × (result.next ≤ length s.now) × Reads s.now at result.next result.entry × InText s.now at result.entry }
{
    match step_line(s, at) {
        None => any_line(s, at),
        Some((k, next)) => Read {
            entry: Entry::Step(k),
            next,
        },
    }
}
