// Printing into a lent table of bytes from a place on. Each function hands back the place after what it printed, and leaves every
// byte before and after that as it was.
#![tactic(auto)]

ghost use Rattle.std.specs.Prelude.{◌≡◌, [], ◌∷◌, map, ◌+◌, ◌*◌, ◌≤◌, ◌<◌, ◌^◌, length, take, get_or, IfSome, IfNone};
ghost use Rattle.definitions.specs.Lists.{flat_map};
ghost use Rattle.definitions.specs.Sheet.Text.{bytes, decimal as «decimal_of»};
ghost use Rattle.definitions.specs.Problem.Atoms.{places_of};
ghost use Rattle.definitions.specs.Reply.Desk.{print_line, sizes_line, step_line};
ghost use Rattle.print_line.specs.Printed.{Prints};
ghost use Rattle.print_line.specs.Lines.{field as «field_of», Spans, said_by, element as «element_of», elements as «elements_of»};

// One byte.
pub fn byte(out: &mut [u8], at: usize, b: u8) -> usize
    requires { at < length out.old }
    ensures { Prints (b ∷ []) out.old at out.new result }
{
    out[at] = b;
    at + 1
}

// The bytes of s: a word, or a name.
pub fn text(out: &mut [u8], at: usize, s: &[u8]) -> usize
    requires { at + length s.now ≤ length out.old }
    ensures { Prints s.now out.old at out.new result }
{
    let mut next = at;
    for b in s {
        next = byte(out, next, *b);
    }
    next
}

// A number in decimal: the digits before the last, then the last.
pub fn decimal(out: &mut [u8], at: usize, k: usize) -> usize
    requires { at + length («decimal_of» k) ≤ length out.old }
    ensures { Prints («decimal_of» k) out.old at out.new result }
{
    if k <= 9 {
        return byte(out, at, (k + 48) as u8);
    }
    let last = decimal(out, at, k / 10);
    byte(out, last, (k % 10 + 48) as u8)
}

// A field: a tab and a number.
pub fn field(out: &mut [u8], at: usize, k: usize) -> usize
    requires { at + length («field_of» k) ≤ length out.old }
    ensures { Prints («field_of» k) out.old at out.new result }
{
    let next = byte(out, at, 9);
    decimal(out, next, k)
}

// A line of a word and numbers, a field each.
fn line(out: &mut [u8], at: usize, word: &[u8], numbers: &[usize]) -> usize
    requires { at + length (print_line (word.now ∷ map «decimal_of» numbers.now)) ≤ length out.old }
    ensures { Prints (print_line (word.now ∷ map «decimal_of» numbers.now)) out.old at out.new result }
{
    let mut next = text(out, at, word);
    for k in numbers {
        next = field(out, next, *k);
    }
    byte(out, next, 10)
}

// A refusal's line.
pub fn no_line(out: &mut [u8], at: usize, number: usize, place: usize) -> usize
    requires { at + length (print_line (bytes "no" ∷ «decimal_of» number ∷ «decimal_of» place ∷ [])) ≤ length out.old }
    ensures { Prints (print_line (bytes "no" ∷ «decimal_of» number ∷ «decimal_of» place ∷ [])) out.old at out.new result }
{
    line(out, at, b"no", &[number, place])
}

// The sizes: elements, atoms, actions, bound.
pub fn sizes_line(
    out: &mut [u8],
    at: usize,
    elements: usize,
    atoms: usize,
    actions: usize,
    bound: usize,
) -> usize
    requires { at + length (sizes_line (record { elements = elements; atom_count = atoms; action_count = actions; step_bound = bound })) ≤ length out.old }
    ensures { Prints (sizes_line (record { elements = elements; atom_count = atoms; action_count = actions; step_bound = bound })) out.old at out.new result }
{
    line(out, at, b"sizes", &[elements, atoms, actions, bound])
}

// How many tuples of a relation are picked.
pub fn count_line(out: &mut [u8], at: usize, name: &[u8], k: usize) -> usize
    requires { at + length (print_line (bytes "count" ∷ name.now ∷ «decimal_of» k ∷ [])) ≤ length out.old }
    ensures { Prints (print_line (bytes "count" ∷ name.now ∷ «decimal_of» k ∷ [])) out.old at out.new result }
{
    let word = text(out, at, b"count\t");
    let named = text(out, word, name);
    let counted = field(out, named, k);
    byte(out, counted, 10)
}

// Where a part of a text stands.
#[derive(Clone, Copy)]
pub struct Span {
    pub from: usize,
    pub to: usize,
}

// Where the label of element x stands in the site's text, if it has one: then its end is not 0.
pub fn label(labels: &[usize], x: usize) -> Option<Span>
    requires { 2 * x + 1 < length labels.now }
    ensures some { IfSome result (λ l. (l.from ≡ get_or labels.now (2 * x) 0) × (l.to ≡ get_or labels.now (2 * x + 1) 0) × (0 < l.to)) }
    ensures none { IfNone result (get_or labels.now (2 * x + 1) 0 ≡ 0) }
{
    let i = 2 * x;
    let from = labels[i];
    let to = labels[i + 1];
    if to == 0 {
        return None;
    }
    Some(Span { from, to })
}

// An element, a field: its label, or its number where it has none.
fn element(out: &mut [u8], at: usize, site: &[u8], labels: &[usize], x: usize) -> usize
    requires { Spans site.now labels.now (x + 1) × (at + length («element_of» site.now labels.now x) ≤ length out.old) }
    ensures { Prints («element_of» site.now labels.now x) out.old at out.new result }
{
    let next = byte(out, at, 9);
    match label(labels, x) {
        Some(l) => text(out, next, &site[l.from..l.to]),
        None => decimal(out, next, x),
    }
}

// The values of a row's places, a field each, the first place first. `tuples` is how many rows there are.
pub fn elements(
    out: &mut [u8],
    at: usize,
    site: &[u8],
    labels: &[usize],
    n: usize,
    arity: usize,
    tuples: usize,
    row: usize,
) -> usize
    requires { Spans site.now labels.now n × (0 < n) × (tuples ≡ n ^ arity) × (at + length («elements_of» site.now labels.now (places_of n arity row)) ≤ length out.old) }
    ensures { Prints («elements_of» site.now labels.now (places_of n arity row)) out.old at out.new result }
{
    let mut width = tuples;
    let mut next = at;
    for _left in (0..arity).rev() {
        width = width / n;
        next = element(out, next, site, labels, row / width % n);
    }
    next
}

// A picked tuple by its row.
pub fn pick_line(
    out: &mut [u8],
    at: usize,
    name: &[u8],
    site: &[u8],
    labels: &[usize],
    n: usize,
    arity: usize,
    tuples: usize,
    row: usize,
) -> usize
    requires { Spans site.now labels.now n × (0 < n) × (tuples ≡ n ^ arity) × (at + length (print_line (bytes "pick" ∷ name.now ∷ map (said_by site.now labels.now) (places_of n arity row))) ≤ length out.old) }
    ensures { Prints (print_line (bytes "pick" ∷ name.now ∷ map (said_by site.now labels.now) (places_of n arity row))) out.old at out.new result }
{
    let word = text(out, at, b"pick\t");
    let named = text(out, word, name);
    let listed = elements(out, named, site, labels, n, arity, tuples, row);
    byte(out, listed, 10)
}

// A step.
pub fn step_line(out: &mut [u8], at: usize, k: usize) -> usize
    requires { at + length (step_line k) ≤ length out.old }
    ensures { Prints (step_line k) out.old at out.new result }
{
    line(out, at, b"step", &[k])
}

// The first n steps of a table, a line each.
pub fn step_lines(out: &mut [u8], at: usize, steps: &[u32], n: usize) -> usize
    requires { (n ≤ length steps.now) × (at + length (flat_map step_line (take n steps.now)) ≤ length out.old) }
    ensures { Prints (flat_map step_line (take n steps.now)) out.old at out.new result }
{
    let mut next = at;
    for k in &steps[..n] {
        next = step_line(out, next, *k as usize);
    }
    next
}

// The last line: how many steps there are.
pub fn ok_line(out: &mut [u8], at: usize, k: usize) -> usize
    requires { at + length (print_line (bytes "ok" ∷ «decimal_of» k ∷ [])) ≤ length out.old }
    ensures { Prints (print_line (bytes "ok" ∷ «decimal_of» k ∷ [])) out.old at out.new result }
{
    line(out, at, b"ok", &[k])
}
