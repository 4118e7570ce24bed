// Parts of the desk program's reply (document 01, "The desk program"): the cut of its input, and the report up to its steps.
#![tactic(auto)]

ghost use Rattle.std.specs.Prelude.{◌≡◌, ◌+◌, ◌*◌, ◌^◌, ◌≤◌, ◌<◌, min, length};
ghost use Rattle.std.proofs.Math.Seq.{slice};
ghost use Rattle.definitions.specs.Sheet.Text.{lines, split};
ghost use Rattle.definitions.specs.Reply.Desk.{is_record, after_rule, first_pick_or_step, starts_with_step};
ghost use Rattle.read_names.specs.Signatures.{SoundSignature};
ghost use Rattle.print_line.specs.Printed.{Prints};
ghost use Rattle.print_line.specs.Lines.{Spans, said_by};
ghost use Rattle.print_report.specs.Cutting.{LineAt, CutAt};
ghost use Rattle.print_report.specs.Report.{count_at, counts as «Counts_of», row_line, row_lines, picks_at, picks as «picks_of», head_of};

use read_names::Signature;

// Where a line's content ends, and where the next line begins.
#[derive(Clone, Copy)]
pub struct Ends {
    pub end: usize,
    pub next: usize,
}

// The line that begins at `at`.
fn line(s: &[u8], at: usize) -> Ends
    requires { at < length s.now }
    ensures { LineAt s.now at result.end result.next }
{
    let n = s.len();
    let end = read_text::find(s, at, n, 10);
    if end < n {
        return Ends { end, next: end + 1 };
    }
    Ends { end, next: n }
}

// Whether w is the record word of the line from `at` up to `end`.
fn is_record(s: &[u8], at: usize, end: usize, w: &[u8]) -> bool
    requires { (at ≤ end) × (end ≤ length s.now) }
    ensures { result ≡ is_record w.now (split 9 (slice at end s.now)) }
{
    let tab = read_text::find(s, at, end, 9);
    read_text::word(s, at, tab, w)
}

// Where the question ends: after the first `rule` line, or with the input.
pub fn question_end(s: &[u8]) -> usize
    ensures { result ≡ min (after_rule (length s.now) (lines s.now)) (length s.now) }
{
    let n = s.len();
    let mut at = 0;
    // No `for`: the next line begins where this one ends.
    while at < n {
        let l = line(s, at);
        if is_record(s, at, l.end, b"rule") {
            return l.next;
        }
        at = l.next;
    }
    n
}

// Where the site ends: before the first `pick` or `step` line of what follows the question, or with it.
pub fn site_end(s: &[u8]) -> usize
    ensures { (result ≤ length s.now) × (result ≡ first_pick_or_step (length s.now) (lines s.now)) }
{
    let n = s.len();
    let mut at = 0;
    // No `for`: the next line begins where this one ends.
    while at < n {
        let l = line(s, at);
        if is_record(s, at, l.end, b"pick") {
            return at;
        }
        if is_record(s, at, l.end, b"step") {
            return at;
        }
        at = l.next;
    }
    n
}

// Whether the first line is a `step` line.
pub fn starts_with_step(s: &[u8]) -> bool
    ensures { result ≡ starts_with_step (lines s.now) }
{
    if s.len() == 0 {
        return false;
    }
    let l = line(s, 0);
    is_record(s, 0, l.end, b"step")
}

// Where the input is cut: its question ends, its site ends, and whether what follows begins with a `step` line.
#[derive(Clone, Copy)]
pub struct Cut {
    pub question: usize,
    pub site: usize,
    pub steps: bool,
}

// The cut of the input into question, site and the rest.
pub fn cut_input(input: &[u8]) -> Cut
    ensures { CutAt input.now result.question result.site result.steps }
{
    let question = question_end(input);
    let more = &input[question..];
    let site = site_end(more);
    let rest = &more[site..];
    let steps = starts_with_step(rest);
    Cut {
        question,
        site: question + site,
        steps,
    }
}

// The `count` line of `choose` j, whose bits are counted word by word.
fn count(
    out: &mut [u8],
    at: usize,
    q: &[u8],
    g: Signature,
    n: usize,
    words: &[u64],
    j: usize,
) -> usize
    requires { SoundSignature q.now g × (1 ≤ n) × (n ≤ 16) × (j < g.chosen) × (64 * g.chosen ≤ length words.now) × (at + length (count_at q.now g n words.now j) ≤ length out.old) }
    ensures { Prints (count_at q.now g n words.now j) out.old at out.new result }
{
    let lo = g.rels;
    let i = lo + j;
    let first = read_tuples::first_word(g, n, lo, i);
    let k = g.arity[i];
    let rows = rows::power(n, k);
    let ones = bits::ones(words, first, (rows + 63) / 64);
    let a = g.from[i];
    let e = g.to[i];
    print_line::count_line(out, at, &q[a..e], ones)
}

// The `count` line of each `choose`.
fn counts(out: &mut [u8], at: usize, q: &[u8], g: Signature, n: usize, words: &[u64]) -> usize
    requires { SoundSignature q.now g × (1 ≤ n) × (n ≤ 16) × (64 * g.chosen ≤ length words.now) × (at + length («Counts_of» q.now g n words.now) ≤ length out.old) }
    ensures { Prints («Counts_of» q.now g n words.now) out.old at out.new result }
{
    let m = g.chosen;
    let mut next = at;
    for j in 0..m {
        next = count(out, next, q, g, n, words, j);
    }
    next
}

// The `pick` line of a row, if the row's bit is set.
fn row_line(
    out: &mut [u8],
    at: usize,
    words: &[u64],
    first: usize,
    name: &[u8],
    site: &[u8],
    labels: &[usize],
    n: usize,
    arity: usize,
    rows: usize,
    row: usize,
) -> usize
    requires { Spans site.now labels.now n × (0 < n) × (rows ≡ n ^ arity) × (first + row < 64 * length words.now) × (first + row < 2 ^ 64) × (at + length (row_line (said_by site.now labels.now) words.now first name.now n arity row) ≤ length out.old) }
    ensures { Prints (row_line (said_by site.now labels.now) words.now first name.now n arity row) out.old at out.new result }
{
    if bits::get(words, first + row) {
        return print_line::pick_line(out, at, name, site, labels, n, arity, rows, row);
    }
    at
}

// The `pick` lines of a relation: one for each of its rows whose bit is set.
fn row_lines(
    out: &mut [u8],
    at: usize,
    words: &[u64],
    first: usize,
    name: &[u8],
    site: &[u8],
    labels: &[usize],
    n: usize,
    arity: usize,
    rows: usize,
) -> usize
    requires { Spans site.now labels.now n × (0 < n) × (rows ≡ n ^ arity) × (first + rows ≤ 64 * length words.now) × (first + rows < 2 ^ 64) × (at + length (row_lines (said_by site.now labels.now) words.now first name.now n arity) ≤ length out.old) }
    ensures { Prints (row_lines (said_by site.now labels.now) words.now first name.now n arity) out.old at out.new result }
{
    let mut next = at;
    for row in 0..rows {
        next = row_line(
            out, next, words, first, name, site, labels, n, arity, rows, row,
        );
    }
    next
}

// The `pick` lines of `choose` j.
fn picked(
    out: &mut [u8],
    at: usize,
    q: &[u8],
    site: &[u8],
    labels: &[usize],
    g: Signature,
    n: usize,
    words: &[u64],
    j: usize,
) -> usize
    requires { SoundSignature q.now g × Spans site.now labels.now n × (1 ≤ n) × (n ≤ 16) × (j < g.chosen) × (64 * g.chosen ≤ length words.now) × (at + length (picks_at (said_by site.now labels.now) q.now g n words.now j) ≤ length out.old) }
    ensures { Prints (picks_at (said_by site.now labels.now) q.now g n words.now j) out.old at out.new result }
{
    let lo = g.rels;
    let i = lo + j;
    let first = read_tuples::first_word(g, n, lo, i);
    let k = g.arity[i];
    let rows = rows::power(n, k);
    let a = g.from[i];
    let e = g.to[i];
    row_lines(
        out,
        at,
        words,
        first * 64,
        &q[a..e],
        site,
        labels,
        n,
        k,
        rows,
    )
}

// The `pick` lines of each `choose`.
fn picks(
    out: &mut [u8],
    at: usize,
    q: &[u8],
    site: &[u8],
    labels: &[usize],
    g: Signature,
    n: usize,
    words: &[u64],
) -> usize
    requires { SoundSignature q.now g × Spans site.now labels.now n × (1 ≤ n) × (n ≤ 16) × (64 * g.chosen ≤ length words.now) × (at + length («picks_of» (said_by site.now labels.now) q.now g n words.now) ≤ length out.old) }
    ensures { Prints («picks_of» (said_by site.now labels.now) q.now g n words.now) out.old at out.new result }
{
    let m = g.chosen;
    let mut next = at;
    for j in 0..m {
        next = picked(out, next, q, site, labels, g, n, words, j);
    }
    next
}

// The report up to its steps: the sizes, the counts, the picks.
pub fn head(
    out: &mut [u8],
    q: &[u8],
    site: &[u8],
    labels: &[usize],
    g: Signature,
    n: usize,
    atoms: usize,
    actions: usize,
    bound: usize,
    words: &[u64],
) -> usize
    requires { SoundSignature q.now g × Spans site.now labels.now n × (1 ≤ n) × (n ≤ 16) × (64 * g.chosen ≤ length words.now) × (length (head_of (said_by site.now labels.now) q.now g n atoms actions bound words.now) ≤ length out.old) }
    ensures { Prints (head_of (said_by site.now labels.now) q.now g n atoms actions bound words.now) out.old 0 out.new result }
{
    let sized = print_line::sizes_line(out, 0, n, atoms, actions, bound);
    let counted = counts(out, sized, q, g, n, words);
    picks(out, counted, q, site, labels, g, n, words)
}
