// The lines of a step and the bytes of a page (document 02, job 9).
#![tactic(auto)]

ghost use Rattle.std.specs.Prelude.{◌≡◌, List, [], ◌∷◌, ◌++◌, ℕ, suc, ◌+◌, ◌-◌, ◌*◌, ◌^◌, ◌≤◌, ◌<◌, length, take, drop, get_or, replicate};
ghost use Rattle.std.proofs.Math.Option.{some};
ghost use Rattle.print_line.specs.Lines.{said_by};
ghost use Rattle.print_bytes.specs.Emitted.{Emits};
ghost use Rattle.definitions.specs.Lists.{flat_map};
ghost use Rattle.definitions.specs.Sheet.Sheets.{Label};
ghost use Rattle.definitions.specs.Problem.Atoms.{Problem, places_of};
ghost use Rattle.definitions.specs.Reply.Desk.{said as «label_of»};
ghost use Rattle.definitions.specs.Reply.Page.{left, ended_line, blank_line, lines_of, page_text};
ghost use Rattle.definitions.specs.Reply.Outcome.{written};
ghost use Rattle.definitions.specs.Problem.Actions.{Action, action_at};
ghost use Rattle.laws.specs.Pages.{Shown, lines_at};
ghost use Rattle.print_line.specs.Printed.{print};
ghost use Rattle.problem_table.specs.Of.{Is};
ghost use Rattle.problem_action.specs.Decoded.{Grounded};
ghost use Rattle.rows.specs.Values.{Within, Most};
ghost use Rattle.read_names.specs.Signatures.{SoundSignature};
ghost use Rattle.problem_table.specs.Lines.{size_in, Fits};
ghost use Rattle.problem_table.specs.Numbers.{ActFits};
ghost use Rattle.print_page.specs.Elements.{Names, NamesAre, name_in, free_in, tuple_in, elements_in, part_in, kind_in, subject_in, head_in};
ghost use Rattle.print_units.specs.Units.{Short};
ghost use Rattle.print_page.specs.Steps.{is_there};
ghost use Rattle.print_page.specs.Bodies.{rest_from, Before, Finds, Covers};
ghost use Rattle.print_page.specs.Naming.{Named};

use problem_table::Act;
use read_names::Signature;

// Lines of steps on a page, the bytes of a page, and those of its lines of steps.
pub const LINES: usize = 59;

pub const PAGE: usize = 4380;

const BODY: usize = 4307;

// Three numbers for each of 18 relations.
pub const NAMES: usize = 54;

// The places of a row, the first place first, at the front of the lent numbers.
fn places(n: usize, count: usize, row: usize, values: &mut [usize])
    requires { (0 < n) × (count ≤ length values.old) × Within n values.old }
    ensures { (take count values.new ≡ places_of n count row) × Within n values.new }
{
    let mut rest = row;
    for i in (0..count).rev() {
        values[i] = rest % n;
        rest = rest / n;
    }
}

// The values of a node's free variables, and how many they are.
pub fn free(table: &[usize], v: usize, row: usize, values: &mut [usize]) -> usize
    requires { Fits table.now × (v < 64) × (5 ≤ length values.old) × Within (size_in table.now) values.old }
    ensures { (result ≤ 4) × (take result values.new ≡ free_in table.now v row) × Within (size_in table.now) values.new }
{
    let line = problem_table::node_line(table, v);
    let width = line.width;
    places(table[0], width, row, values);
    width
}

// The same, and then an element.
pub fn free_and(table: &[usize], v: usize, row: usize, x: usize, values: &mut [usize]) -> usize
    requires { Fits table.now × (v < 64) × (5 ≤ length values.old) × Within (size_in table.now) values.old × (x < size_in table.now) }
    ensures { (result ≤ 5) × (take result values.new ≡ free_in table.now v row ++ (x ∷ [])) × Within (size_in table.now) values.new }
{
    let count = free(table, v, row, values);
    values[count] = x;
    count + 1
}

// The places of a tuple that an action is about, and how many they are.
pub fn tuple_places(
    table: &[usize],
    names: &[usize],
    t: problem_table::TupleAct,
    values: &mut [usize],
) -> usize
    requires fits { Fits table.now × (t.relation < 18) × (5 ≤ length values.old) × Within (size_in table.now) values.old }
    requires by_index { (question : List ℕ) × Names question names.now }
    ensures { (result ≤ 5) × (take result values.new ≡ tuple_in table.now names.now t) × Within (size_in table.now) values.new }
{
    let r = t.relation;
    let count = names[3 * r + 2];
    places(table[0], count, t.row, values);
    count
}

// The elements that an action shows, and how many they are.
fn elements(table: &[usize], names: &[usize], a: Act, values: &mut [usize]) -> usize
    requires fits { Fits table.now × ActFits table.now a × (5 ≤ length values.old) × Within (size_in table.now) values.old }
    requires by_index { (question : List ℕ) × Names question names.now }
    ensures { (result ≤ 5) × (take result values.new ≡ elements_in table.now names.now a) × Within (size_in table.now) values.new }
{
    match a {
        Act::Set(t) => tuple_places(table, names, t, values),
        Act::Begin => 0,
        Act::And(t) => free(table, t.node, t.row, values),
        Act::Or(t) => free(table, t.node, t.row, values),
        Act::Exists(t) => free_and(table, t.node, t.row, t.choice, values),
        Act::Forall(t) => free_and(table, t.node, t.row, t.choice, values),
        Act::Goal => 0,
        Act::RoundEnd => 0,
        Act::MarkIn(t) => tuple_places(table, names, t, values),
        Act::MarkOut(t) => tuple_places(table, names, t, values),
        Act::Nothing => 0,
    }
}

// Its part by its number, where it has one.
fn part_of(a: Act) -> Option<usize>
    ensures { result ≡ part_in a }
{
    match a {
        Act::Or(t) => Some(t.choice),
        _ => None,
    }
}

// Its kind, in 12 columns.
fn kind(out: &mut [u8], at: usize, a: Act) -> usize
    ensures { Emits (left 12 (kind_in a)) out.old at out.new result }
{
    match a {
        Act::Set(_) => print_bytes::left(out, at, 12, b"set"),
        Act::Begin => print_bytes::left(out, at, 12, b"begin-proof"),
        Act::And(_) => print_bytes::left(out, at, 12, b"and"),
        Act::Or(_) => print_bytes::left(out, at, 12, b"or"),
        Act::Exists(_) => print_bytes::left(out, at, 12, b"exists"),
        Act::Forall(_) => print_bytes::left(out, at, 12, b"forall"),
        Act::Goal => print_bytes::left(out, at, 12, b"prove-goal"),
        Act::RoundEnd => print_bytes::left(out, at, 12, b"round-end"),
        Act::MarkIn(_) => print_bytes::left(out, at, 12, b"mark-in"),
        Act::MarkOut(_) => print_bytes::left(out, at, 12, b"mark-out"),
        Act::Nothing => print_bytes::spaces(out, at, 12),
    }
}

// The name of a relation, in 12 columns.
fn name(out: &mut [u8], at: usize, question: &[u8], names: &[usize], r: usize) -> usize
    requires { Names question.now names.now × (r < 18) }
    ensures { Emits (left 12 (name_in question.now names.now r)) out.old at out.new result }
{
    let from = names[3 * r];
    let to = names[3 * r + 1];
    print_bytes::left(out, at, 12, &question[from..to])
}

// Its relation, or its node's preorder number, in 12 columns.
fn subject(out: &mut [u8], at: usize, question: &[u8], names: &[usize], a: Act) -> usize
    requires { Names question.now names.now × ((w : List ℕ) × ActFits w a) }
    ensures { Emits (left 12 (subject_in question.now names.now a)) out.old at out.new result }
{
    match a {
        Act::Set(t) => name(out, at, question, names, t.relation),
        Act::Begin => print_bytes::spaces(out, at, 12),
        Act::And(t) => print_bytes::left_number(out, at, 12, t.node),
        Act::Or(t) => print_bytes::left_number(out, at, 12, t.node),
        Act::Exists(t) => print_bytes::left_number(out, at, 12, t.node),
        Act::Forall(t) => print_bytes::left_number(out, at, 12, t.node),
        Act::Goal => print_bytes::spaces(out, at, 12),
        Act::RoundEnd => print_bytes::spaces(out, at, 12),
        Act::MarkIn(t) => name(out, at, question, names, t.relation),
        Act::MarkOut(t) => name(out, at, question, names, t.relation),
        Act::Nothing => print_bytes::spaces(out, at, 12),
    }
}

// What stands before the elements in a step's first line.
fn head(
    out: &mut [u8],
    at: usize,
    question: &[u8],
    names: &[usize],
    i: usize,
    k: usize,
    a: Act,
) -> usize
    requires { Names question.now names.now × ((w : List ℕ) × ActFits w a) }
    ensures { Emits (head_in question.now names.now i k a) out.old at out.new result }
{
    let indexed = print_bytes::right(out, at, 7, i);
    let second = print_bytes::byte(out, indexed, 32);
    let numbered = print_bytes::right(out, second, 7, k);
    let third = print_bytes::byte(out, numbered, 32);
    let kinded = kind(out, third, a);
    let fourth = print_bytes::byte(out, kinded, 32);
    let named = subject(out, fourth, question, names, a);
    print_bytes::byte(out, named, 32)
}

// Whether there is such an action.
fn is_there(a: Act) -> bool
    ensures { result ≡ is_there a }
{
    !matches!(a, Act::Nothing)
}

// The lines of step i, which is action k, each with its end.
pub fn step(
    out: &mut [u8],
    at: usize,
    question: &[u8],
    site: &[u8],
    labels: &[usize],
    names: &[usize],
    table: &[usize],
    i: usize,
    k: usize,
) -> usize
    requires { Grounded table.now × Names question.now names.now × Short site.now labels.now (size_in table.now) }
    ensures { (p : Problem) (ls : List Label) → Is p table.now → NamesAre p question.now names.now → said_by site.now labels.now ≡ «label_of» ls
        → Emits (flat_map ended_line (lines_at ls p i k)) out.old at out.new result }
{
    let a = problem_action::action_at(table, k);
    if is_there(a) {
        let mut values = [0usize; 5];
        let count = elements(table, names, a, &mut values);
        let part = part_of(a);
        let headed = head(out, at, question, names, i, k, a);
        return print_units::units(out, headed, site, labels, &values[..count], part);
    }
    at
}

// How many lines these are.
pub fn step_lines(
    site: &[u8],
    labels: &[usize],
    names: &[usize],
    table: &[usize],
    k: usize,
) -> usize
    requires { Grounded table.now × ((question : List ℕ) × Names question names.now) × Short site.now labels.now (size_in table.now) }
    ensures { ((p : Problem) (ls : List Label) (question : List ℕ) (i : ℕ) → Is p table.now → NamesAre p question names.now → said_by site.now labels.now ≡ «label_of» ls
        → result ≡ length (lines_at ls p i k)) × (result ≤ 6) }
{
    let a = problem_action::action_at(table, k);
    if is_there(a) {
        let mut values = [0usize; 5];
        let count = elements(table, names, a, &mut values);
        let part = part_of(a);
        return print_units::lines(site, labels, &values[..count], part);
    }
    0
}

// The step that has a page's first line, and how many lines stand before that step; the number of steps where there is no such line.
#[derive(Clone, Copy)]
pub struct Place {
    pub index: usize,
    pub line: usize,
}

// Finds that step for the line of number `first`, from 0: the lines of the steps before it are only counted.
pub fn find(
    site: &[u8],
    labels: &[usize],
    names: &[usize],
    table: &[usize],
    steps: &[u32],
    first: usize,
) -> Place
    requires grounded { Grounded table.now × ((question : List ℕ) × Names question names.now) × Short site.now labels.now (size_in table.now) }
    requires first_bound { first < 2 ^ 32 }
    ensures { (result.index ≤ length steps.now) × (result.line ≤ first) × (result.index < length steps.now → first < result.line + 6)
        × ((p : Problem) (ls : List Label) (question : List ℕ) → Is p table.now → NamesAre p question names.now → said_by site.now labels.now ≡ «label_of» ls
        → Finds ls p steps.now first result.index result.line) }
{
    let mut line: usize = 0;
    for (index, k) in steps.iter().enumerate() {
        let many = step_lines(site, labels, names, table, *k as usize);
        if first < line + many {
            return Place { index, line };
        }
        line += many;
    }
    Place {
        index: steps.len(),
        line,
    }
}

// So many blank lines, each with its end.
fn blanks(out: &mut [u8], at: usize, count: usize) -> usize
    ensures { Emits (flat_map ended_line (replicate count blank_line)) out.old at out.new result }
{
    let mut next = at;
    for _left in (0..count).rev() {
        let filled = print_bytes::spaces(out, next, 72);
        next = print_bytes::byte(out, filled, 10);
    }
    next
}

// The lines of the steps from one on, as far as there is room.
fn following(
    out: &mut [u8],
    at: usize,
    question: &[u8],
    site: &[u8],
    labels: &[usize],
    names: &[usize],
    table: &[usize],
    steps: &[u32],
    from: usize,
) -> usize
    requires { Grounded table.now × Names question.now names.now × Short site.now labels.now (size_in table.now) }
    ensures { (p : Problem) (ls : List Label) → Is p table.now → NamesAre p question.now names.now → said_by site.now labels.now ≡ «label_of» ls
        → Covers (flat_map ended_line (rest_from ls p steps.now from)) out.old at out.new result }
{
    let mut next = at;
    for i in from..steps.len() {
        if out.len() <= next {
            return next;
        }
        let k = steps[i] as usize;
        next = step(out, next, question, site, labels, names, table, i, k);
    }
    next
}

// A part of a text, where it has one.
fn part_from(out: &mut [u8], at: usize, s: &[u8], from: usize, to: usize) -> usize
    ensures { from ≤ to → to ≤ length s.now → Emits (take (to - from) (drop from s.now)) out.old at out.new result }
{
    if to <= s.len() {
        if from <= to {
            return print_bytes::text(out, at, &s[from..to]);
        }
        return at;
    }
    at
}

// The lines of step i, from the line of number `skip` on, at the front.
fn first_lines(
    out: &mut [u8],
    question: &[u8],
    site: &[u8],
    labels: &[usize],
    names: &[usize],
    table: &[usize],
    i: usize,
    k: usize,
    skip: usize,
) -> usize
    requires grounded { Grounded table.now × Names question.now names.now × Short site.now labels.now (size_in table.now) }
    requires skip_bound { skip ≤ 64 }
    ensures { (p : Problem) (ls : List Label) → Is p table.now → NamesAre p question.now names.now → said_by site.now labels.now ≡ «label_of» ls
        → ((j : ℕ) (a : Action) → action_at p j ≡ some a → Shown ls p j a) → i < 10 ^ 7 → skip ≤ length (lines_at ls p i k)
        → Emits (flat_map ended_line (drop skip (lines_at ls p i k))) out.old 0 out.new result }
{
    let mut scratch = [0u8; 511];
    let len = step(&mut scratch, 0, question, site, labels, names, table, i, k);
    part_from(out, 0, &scratch, 73 * skip, len)
}

// The lines of a page: those of its first step from the line of number `skip` on, those of the steps after it, blank ones.
fn body(
    out: &mut [u8],
    question: &[u8],
    site: &[u8],
    labels: &[usize],
    names: &[usize],
    table: &[usize],
    steps: &[u32],
    index: usize,
    skip: usize,
)
    requires grounded { Grounded table.now × Names question.now names.now × Short site.now labels.now (size_in table.now) }
    requires skip_bound { (skip ≤ 64) × (index < length steps.now) }
    ensures { (p : Problem) (ls : List Label) → Is p table.now → NamesAre p question.now names.now → said_by site.now labels.now ≡ «label_of» ls
        → ((j : ℕ) (a : Action) → action_at p j ≡ some a → Shown ls p j a) → length steps.now ≤ 10 ^ 7 → skip ≤ length (lines_at ls p index (get_or steps.now index 0))
        → out.new ≡ print out.old 0 (flat_map ended_line (drop skip (rest_from ls p steps.now index)) ++ flat_map ended_line (replicate 59 blank_line)) }
{
    let k = steps[index] as usize;
    let begun = first_lines(out, question, site, labels, names, table, index, k, skip);
    let gone = following(
        out,
        begun,
        question,
        site,
        labels,
        names,
        table,
        steps,
        index + 1,
    );
    blanks(out, gone, LINES);
}

// The page of a number, from 1, whose first line is the line of number `skip` of step `index`; how many bytes it has.
pub fn page(
    out: &mut [u8],
    question: &[u8],
    site: &[u8],
    labels: &[usize],
    names: &[usize],
    table: &[usize],
    steps: &[u32],
    index: usize,
    skip: usize,
    number: usize,
) -> usize
    requires grounded { Grounded table.now × Names question.now names.now × Short site.now labels.now (size_in table.now) }
    requires skip_bound { (skip ≤ 64) × (index < length steps.now) × (4380 ≤ length out.old) }
    ensures { (p : Problem) (ls : List Label) → Is p table.now → NamesAre p question.now names.now → said_by site.now labels.now ≡ «label_of» ls
        → ((j : ℕ) (a : Action) → action_at p j ≡ some a → Shown ls p j a) → length steps.now ≤ 10 ^ 7 → skip ≤ length (lines_at ls p index (get_or steps.now index 0))
        → (line m : ℕ) → Before ls p steps.now index line → line + skip ≡ 59 * m → number ≡ suc m → suc m < 10 ^ 6
        → (result ≡ 4380) × (out.new ≡ written (page_text (lines_of ls p steps.now) m) out.old) }
{
    body(
        &mut out[..BODY],
        question,
        site,
        labels,
        names,
        table,
        steps,
        index,
        skip,
    );
    let blank = print_bytes::spaces(out, BODY, 66);
    let numbered = print_bytes::right(out, blank, 6, number);
    print_bytes::byte(out, numbered, 10)
}

// The names and arities of a signature's relations, three numbers for each by its number; the lent numbers come in as 54 zeros.
pub fn names_of(g: Signature, names: &mut [usize])
    requires by_index { (question : List ℕ) × SoundSignature question g }
    requires names_len { (length names.old ≡ 54) × Most names.old 0 }
    ensures { Named g.from g.to g.arity (g.rels + g.chosen + g.every) names.new }
{
    let total = g.rels + g.chosen + g.every;
    let from = g.from;
    let to = g.to;
    let arity = g.arity;
    for i in 0..total {
        names[15 + 3 * i] = from[i];
        names[15 + 3 * i + 1] = to[i];
        names[15 + 3 * i + 2] = arity[i];
    }
}
