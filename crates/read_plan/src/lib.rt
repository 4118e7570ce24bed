// The lines of a plan (document 02, job 11): their form, how many there are, and the step that each is.
#![tactic(auto)]

ghost use Rattle.std.specs.Prelude.{◌≡◌, false, List, ℕ, ◌+◌, ◌^◌, ◌≤◌, ◌<◌, length, take, set};
ghost use Rattle.std.proofs.Math.Seq.{slice};
ghost use Rattle.definitions.specs.Lists.{all, is_some, same};
ghost use Rattle.definitions.specs.Sheet.Text.{split};
ghost use Rattle.definitions.specs.Refusal.{accepted};
ghost use Rattle.definitions.specs.Reply.Pddl.{small as «small_of», folded, is_word_byte, is_word, words_in, read_plan_lines, name_from, object_from, PlanLine, step_from};
ghost use Rattle.definitions.specs.Problem.Truth.{Case};
ghost use Rattle.definitions.specs.Problem.Atoms.{problem_of, row_of};
ghost use Rattle.laws.specs.Reader.{Accepted};
ghost use Rattle.problem_table.specs.Lines.{table_length, size_in, nodes_in, relations_in, node_line, relation_line, Fits};
ghost use Rattle.problem_table.specs.Of.{Is};
ghost use Rattle.print_page.specs.Elements.{Names, NamesAre};
ghost use Rattle.print_names.specs.Naming.{name_of, SmallName};
ghost use Rattle.read_plan.specs.Lines.{FormedAs};
ghost use Rattle.read_plan.specs.Names.{number_or, or_in, forall_in, proof_in, other_in};
ghost use Rattle.read_plan.specs.Domain.{is_node_in, is_part_in, named_in, is_chosen_in, Compared, IsSet, SetFound};
ghost use Rattle.read_plan.specs.Tails.{Posed};
ghost use Rattle.read_plan.specs.Writing.{StepsEnd};
ghost use Rattle.rows.specs.Values.{Within};
ghost use Rattle.read_plan.specs.Objects.{object_of, words_after, Objects};
ghost use Rattle.read_plan.specs.Numbers.{told, sized, node_number, set_number, exists_number, next_number, or_number, number_by, NameFits};

use print_names::Name;
use refusal::{Cause, Refusal};

// No action has so many parameters, and no node such a number: a name that was misspelt has it, and so is none of the domain's, with no
// Option for each of its numbers.
const MANY: usize = 7;

const NO_NODE: usize = 10000000;

// A node's steps at each row: how many they are, which one is meant, and how many values that takes beside the row's.
#[derive(Clone, Copy)]
struct Choice {
    each: usize,
    choice: usize,
    more: usize,
}

// A letter as a small one.
fn small(b: u8) -> u8
    ensures { result ≡ «small_of» b }
{
    if b.is_ascii_uppercase() { b + 32 } else { b }
}

// A byte of a word: a letter, a digit, `_` or `-`.
fn is_word_byte(b: u8) -> bool
    ensures { result ≡ is_word_byte («small_of» b) }
{
    let c = small(b);
    c.is_ascii_lowercase() | c.is_ascii_digit() | (c == b'_') | (c == b'-')
}

// The span is a word.
fn is_word(s: &[u8], a: usize, e: usize) -> bool
    requires { (a ≤ e) × (e ≤ length s.now) }
    ensures { result ≡ is_word (folded (slice a e s.now)) }
{
    if a == e {
        return false;
    }
    for i in a..e {
        if !is_word_byte(s[i]) {
            return false;
        }
    }
    true
}

// The span is words, a space between two.
fn all_words(s: &[u8], a: usize, e: usize) -> bool
    requires { (a ≤ e) × (e ≤ length s.now) }
    ensures { result ≡ all is_word (split 32 (folded (slice a e s.now))) }
{
    let mut i = a;
    let mut j = read_text::find(s, a, e, 32);
    // no count: the next word begins where this one ended
    while j < e {
        if is_word(s, i, j) {
            i = j + 1;
            j = read_text::find(s, i, e, 32);
        } else {
            return false;
        }
    }
    is_word(s, i, e)
}

// The span is words in brackets.
fn is_formed(s: &[u8], a: usize, e: usize) -> bool
    requires { (a ≤ e) × (e ≤ length s.now) }
    ensures { result ≡ is_some (words_in (folded (slice a e s.now))) }
{
    if e - a < 2 {
        return false;
    }
    if s[a] != 40 {
        return false;
    }
    if s[e - 1] != 41 {
        return false;
    }
    all_words(s, a + 1, e - 1)
}

// How many lines a plan has; refused where the text is too long, and where a line begins that is not words in brackets.
pub fn form(s: &[u8]) -> Result<usize, Refusal>
    ensures { FormedAs (read_plan_lines s.now) result }
{
    let n = s.len();
    if read_text::LIMIT < n {
        return Err(Cause::TooLong.at(0));
    }
    let mut at: usize = 0;
    let mut count: usize = 0;
    // no count: the next line begins where this one ended
    while at < n {
        let e = read_text::find(s, at, n, 10);
        if e == n {
            return Err(Cause::NoRecord.at(at));
        }
        if !is_formed(s, at, e) {
            return Err(Cause::NoRecord.at(at));
        }
        at = e + 1;
        count += 1;
    }
    Ok(count)
}

// The first n bytes of t are those of s from a on, but for letters.
fn same_letters(t: &[u8], n: usize, s: &[u8], a: usize) -> bool
    requires { (n ≤ length t.now) × (a + n ≤ length s.now) }
    ensures { result ≡ same (folded (take n t.now)) (folded (slice a (a + n) s.now)) }
{
    for i in 0..n {
        if small(t[i]) != small(s[a + i]) {
            return false;
        }
    }
    true
}

// The span is the word of an action, but for letters.
fn is_said(question: &[u8], names: &[usize], k: Name, s: &[u8], a: usize, e: usize) -> bool
    requires names { Names question.now names.now × SmallName k }
    requires a_le_e { (a ≤ e) × (e ≤ length s.now) }
    ensures { Compared question.now names.now (slice a e s.now) k result }
{
    let mut scratch = [0u8; 24];
    let n = print_names::action_word(&mut scratch, 0, question, names, k);
    if n != e - a {
        return false;
    }
    if 24 < n {
        return false;
    }
    same_letters(&scratch, n, s, a)
}

// The number that the span writes, or NO_NODE.
fn number_in(s: &[u8], a: usize, e: usize) -> usize
    requires { e ≤ length s.now }
    ensures { result ≡ number_or (slice a e s.now) }
{
    if e < a {
        return NO_NODE;
    }
    match read_text::number(s, a, e) {
        None => NO_NODE,
        Some(k) => k as usize,
    }
}

// The name of an `or` and its part, after what they begin with.
fn or_name(s: &[u8], a: usize, e: usize) -> Name
    requires { (a ≤ e) × (e ≤ length s.now) }
    ensures { name_of result ≡ or_in (folded (slice a e s.now)) }
{
    let t = read_text::find(s, a, e, 95);
    if t == e {
        return Name::Nobody;
    }
    let v = number_in(s, a, t);
    let i = number_in(s, t + 1, e);
    Name::Or(v, i)
}

// The name of a `forall`: for the first element, or for an element and the next.
fn forall_name(s: &[u8], a: usize, e: usize) -> Name
    requires { (e ≤ length s.now) × (a < 2 ^ 32) }
    ensures { name_of result ≡ forall_in (folded (slice a e s.now)) }
{
    if e < a + 2 {
        return Name::Nobody;
    }
    let v = number_in(s, a, e - 2);
    if s[e - 1] == 49 {
        return Name::First(v);
    }
    Name::Next(v)
}

// The only name that a word may be which begins with neither `s` nor `b`: its seventh byte tells the kind, and then come numbers.
fn proof_name(s: &[u8], a: usize, e: usize) -> Name
    requires { (a ≤ e) × (e ≤ length s.now) × (e < 2 ^ 31) }
    ensures { name_of result ≡ proof_in (folded (slice a e s.now)) }
{
    if e - a < 10 {
        return Name::Nobody;
    }
    let b = small(s[a + 6]);
    if b == 103 {
        return Name::Goal;
    }
    if b == 97 {
        let v = number_in(s, a + 10, e);
        return Name::And(v);
    }
    if b == 111 {
        return or_name(s, a + 9, e);
    }
    if b == 101 {
        let v = number_in(s, a + 13, e);
        return Name::Exists(v);
    }
    forall_name(s, a + 13, e)
}

// The name that the word may be, if it begins with no `s`.
fn other_name(s: &[u8], a: usize, e: usize) -> Name
    requires { (a < e) × (e ≤ length s.now) × (e < 2 ^ 31) }
    ensures { name_of result ≡ other_in (folded (slice a e s.now)) }
{
    if small(s[a]) == 98 {
        return Name::Begin;
    }
    proof_name(s, a, e)
}

// Whether there is a node of that number and kind.
fn is_node(table: &[usize], v: usize, kind: usize) -> bool
    requires { Fits table.now }
    ensures { result ≡ is_node_in table.now v kind }
{
    if table[2] <= v {
        return false;
    }
    problem_table::node_line(table, v).kind == kind
}

// Whether there is an `or` of that number, and it has the part.
fn is_part(table: &[usize], v: usize, i: usize) -> bool
    requires { Fits table.now }
    ensures { result ≡ is_part_in table.now v i }
{
    if is_node(table, v, 3) {
        return i < problem_table::node_line(table, v).many;
    }
    false
}

// Whether an action has the name; none is asked for that sets tuples.
fn is_named(table: &[usize], k: Name) -> bool
    requires { Fits table.now }
    ensures { result ≡ named_in table.now k }
{
    match k {
        Name::Set(_) => false,
        Name::Begin => true,
        Name::Goal => true,
        Name::And(v) => is_node(table, v, 2),
        Name::Exists(v) => is_node(table, v, 1),
        Name::First(v) => is_node(table, v, 0),
        Name::Next(v) => is_node(table, v, 0),
        Name::Or(v, i) => is_part(table, v, i),
        Name::Nobody => false,
    }
}

// Whether the relation is a `choose`.
fn is_chosen(table: &[usize], r: usize) -> bool
    requires { (length table.now ≡ table_length) × (r < 18) }
    ensures { result ≡ is_chosen_in table.now r }
{
    let kind = problem_table::relation_line(table, r).kind;
    if kind < 1 {
        return false;
    }
    if 5 < kind {
        return false;
    }
    true
}

// Whether the word is that of the action which sets the relation's tuples.
fn is_set(
    question: &[u8],
    names: &[usize],
    table: &[usize],
    r: usize,
    s: &[u8],
    a: usize,
    e: usize,
) -> bool
    requires fits { Fits table.now × Names question.now names.now × (r < 18) }
    requires a_le_e { (a ≤ e) × (e ≤ length s.now) }
    ensures { IsSet question.now names.now table.now (slice a e s.now) r result }
{
    if is_chosen(table, r) {
        let k = Name::Set(r);
        return is_said(question, names, k, s, a, e);
    }
    false
}

// The name of the `choose` whose tuples the word sets.
fn set_name(question: &[u8], names: &[usize], table: &[usize], s: &[u8], a: usize, e: usize) -> Name
    requires fits { Fits table.now × Names question.now names.now }
    requires a_le_e { (a ≤ e) × (e ≤ length s.now) }
    ensures { (c : Case) → Accepted c → Is (problem_of c) table.now → NamesAre (problem_of c) question.now names.now → SetFound c (folded (slice a e s.now)) result }
{
    let rels = table[1];
    for r in 0..rels {
        if is_set(question, names, table, r, s, a, e) {
            return Name::Set(r);
        }
    }
    Name::Nobody
}

// The name that the word is, of an action that the domain has.
fn name(question: &[u8], names: &[usize], table: &[usize], s: &[u8], a: usize, e: usize) -> Name
    requires fits { Fits table.now × Names question.now names.now }
    requires a_le_e { (a ≤ e) × (e ≤ length s.now) × (e < 2 ^ 31) }
    ensures { (c : Case) → Accepted c → Is (problem_of c) table.now → NamesAre (problem_of c) question.now names.now → name_of result ≡ name_from c (folded (slice a e s.now)) }
{
    if a == e {
        return Name::Nobody;
    }
    if small(s[a]) == 115 {
        return set_name(question, names, table, s, a, e);
    }
    let k = other_name(s, a, e);
    if is_named(table, k) {
        if is_said(question, names, k, s, a, e) {
            return k;
        }
    }
    Name::Nobody
}

// The element of an object's word, or n.
fn object(s: &[u8], a: usize, e: usize, n: usize) -> usize
    requires { (a ≤ e) × (e ≤ length s.now) }
    ensures { (result ≤ n) × (object_of n result ≡ object_from n (folded (slice a e s.now))) }
{
    if a == e {
        return n;
    }
    if small(s[a]) != 111 {
        return n;
    }
    match read_text::number(s, a + 1, e) {
        None => n,
        Some(k) => (k as usize).min(n),
    }
}

// The objects of the words after the space at t, and how many they are; MANY where one is no object, or there are so many.
fn objects(s: &[u8], t: usize, e: usize, n: usize, values: &mut [usize]) -> usize
    requires { (e ≤ length s.now) × (t ≤ e) × (length values.old ≡ 6) × Within n values.old }
    ensures { Objects n (words_after s.now t e) values.new result × Within n values.new }
{
    let mut count: usize = 0;
    let mut at = t;
    // no count: the next word begins where this one ended
    while at < e {
        let f = read_text::find(s, at + 1, e, 32);
        let x = object(s, at + 1, f, n);
        if x == n {
            return MANY;
        }
        if count == 6 {
            return MANY;
        }
        values[count] = x;
        count += 1;
        at = f;
    }
    count
}

// The row of the first `count` values.
fn row(n: usize, values: &[usize], count: usize) -> usize
    requires { (n ≤ 64) × (count ≤ 6) × (count ≤ length values.now) × Within n values.now }
    ensures { (result ≡ row_of n (take count values.now)) × (result < 2 ^ 36) }
{
    let mut sum: usize = 0;
    for i in 0..count {
        sum = sum * n + values[i];
    }
    sum
}

// The step of number `number`, if there are as many values as there are to be.
fn step_if(count: usize, wanted: usize, number: usize) -> Option<u32>
    ensures { told result ≡ sized count wanted number }
{
    if count != wanted {
        return None;
    }
    u32::try_from(number).ok()
}

// The step that sets a tuple.
fn set_step(
    names: &[usize],
    table: &[usize],
    r: usize,
    values: &[usize],
    count: usize,
) -> Option<u32>
    requires fits { Fits table.now × (r < 18) × (length values.now ≡ 6) × Within (size_in table.now) values.now }
    requires by_index { (question : List ℕ) × Names question names.now }
    ensures { told result ≡ set_number names.now table.now values.now count r }
{
    let arity = names[3 * r + 2];
    let line = problem_table::relation_line(table, r);
    let at = row(table[0], values, arity);
    step_if(count, arity, line.sets + at)
}

// The step of a node at values of its free variables: of so many in each row, the one of number `choice`. There are `more` values.
fn node_step(table: &[usize], v: usize, values: &[usize], count: usize, c: Choice) -> Option<u32>
    requires fits { Fits table.now × (v < 64) × (length values.now ≡ 6) × Within (size_in table.now) values.now }
    requires each_bound { (c.each ≤ 64) × (c.choice ≤ 2 ^ 32) × (c.more ≤ 2) }
    ensures { told result ≡ node_number table.now values.now count v c.each c.choice c.more }
{
    let line = problem_table::node_line(table, v);
    let width = line.width;
    let first = row(table[0], values, width);
    step_if(count, width + c.more, line.acts + first * c.each + c.choice)
}

// The step of a `forall` at an element after the first, the two elements being the last values.
fn next_step(table: &[usize], v: usize, values: &[usize], count: usize) -> Option<u32>
    requires { Fits table.now × (v < 64) × (length values.now ≡ 6) × Within (size_in table.now) values.now }
    ensures { told result ≡ next_number table.now values.now count v }
{
    let width = problem_table::node_line(table, v).width;
    let z = values[width + 1];
    if z != values[width] + 1 {
        return None;
    }
    node_step(
        table,
        v,
        values,
        count,
        Choice {
            each: table[0],
            choice: z,
            more: 2,
        },
    )
}

// The step of an `exists`, its element being the last value.
fn exists_step(table: &[usize], v: usize, values: &[usize], count: usize) -> Option<u32>
    requires { Fits table.now × (v < 64) × (length values.now ≡ 6) × Within (size_in table.now) values.now }
    ensures { told result ≡ exists_number table.now values.now count v }
{
    let width = problem_table::node_line(table, v).width;
    let x = values[width];
    node_step(
        table,
        v,
        values,
        count,
        Choice {
            each: table[0],
            choice: x,
            more: 1,
        },
    )
}

// The step of an `or` with a part.
fn or_step(table: &[usize], v: usize, i: usize, values: &[usize], count: usize) -> Option<u32>
    requires fits { Fits table.now × (v < 64) × (length values.now ≡ 6) × Within (size_in table.now) values.now }
    requires i_bound { i ≤ 2 ^ 32 }
    ensures { told result ≡ or_number table.now values.now count v i }
{
    let many = problem_table::node_line(table, v).many;
    node_step(
        table,
        v,
        values,
        count,
        Choice {
            each: many,
            choice: i,
            more: 0,
        },
    )
}

// The step that begins the proof, and the one that proves the goal.
fn begin_step(table: &[usize], count: usize) -> Option<u32>
    requires { Fits table.now }
    ensures { told result ≡ sized count 0 (relation_line table.now (relations_in table.now)).sets }
{
    let line = problem_table::relation_line(table, table[1]);
    step_if(count, 0, line.sets)
}

fn goal_step(table: &[usize], count: usize) -> Option<u32>
    requires { Fits table.now }
    ensures { told result ≡ sized count 0 (node_line table.now (nodes_in table.now)).acts }
{
    let line = problem_table::node_line(table, table[2]);
    step_if(count, 0, line.acts)
}

// The step of an `and`, and that of a `forall` at the first element.
fn and_step(table: &[usize], v: usize, values: &[usize], count: usize) -> Option<u32>
    requires { Fits table.now × (v < 64) × (length values.now ≡ 6) × Within (size_in table.now) values.now }
    ensures { told result ≡ node_number table.now values.now count v 1 0 0 }
{
    let c = Choice {
        each: 1,
        choice: 0,
        more: 0,
    };
    node_step(table, v, values, count, c)
}

fn first_step(table: &[usize], v: usize, values: &[usize], count: usize) -> Option<u32>
    requires { Fits table.now × (v < 64) × (length values.now ≡ 6) × Within (size_in table.now) values.now }
    ensures { told result ≡ node_number table.now values.now count v (size_in table.now) 0 0 }
{
    let c = Choice {
        each: table[0],
        choice: 0,
        more: 0,
    };
    node_step(table, v, values, count, c)
}

// The step of a name and objects.
fn action(names: &[usize], table: &[usize], k: Name, values: &[usize], count: usize) -> Option<u32>
    requires fits { Fits table.now × NameFits k × (length values.now ≡ 6) × Within (size_in table.now) values.now }
    requires by_index { (question : List ℕ) × Names question names.now }
    ensures { told result ≡ number_by names.now table.now k values.now count }
{
    match k {
        Name::Set(r) => set_step(names, table, r, values, count),
        Name::Begin => begin_step(table, count),
        Name::Goal => goal_step(table, count),
        Name::And(v) => and_step(table, v, values, count),
        Name::Exists(v) => exists_step(table, v, values, count),
        Name::First(v) => first_step(table, v, values, count),
        Name::Next(v) => next_step(table, v, values, count),
        Name::Or(v, i) => or_step(table, v, i, values, count),
        Name::Nobody => None,
    }
}

// The step of the line whose words go from a up to e.
fn line_step(
    question: &[u8],
    names: &[usize],
    table: &[usize],
    s: &[u8],
    a: usize,
    e: usize,
) -> Option<u32>
    requires posed { (c : Case) × Posed c question.now names.now table.now }
    requires a_le_e { (a ≤ e) × (e ≤ length s.now) × (e < 2 ^ 31) }
    ensures { (c : Case) → Posed c question.now names.now table.now → told result ≡ step_from c (problem_of c) (split 32 (folded (slice a e s.now))) }
{
    let t = read_text::find(s, a, e, 32);
    let k = name(question, names, table, s, a, t);
    let mut values = [0usize; 6];
    let count = objects(s, t, e, table[0], &mut values);
    if count == MANY {
        return None;
    }
    action(names, table, k, &values, count)
}

// A number into the place of a table, where there is one.
fn put(out: &mut [u32], i: usize, x: u32)
    ensures { out.new ≡ set out.old i x }
{
    if i < out.len() {
        out[i] = x;
    }
}

// The steps of lines that are formed, each into the lent numbers where there is room, and how many they are; refused where a line
// begins that is no step.
pub fn steps(
    question: &[u8],
    names: &[usize],
    table: &[usize],
    s: &[u8],
    out: &mut [u32],
) -> Result<usize, Refusal>
    requires posed { (c : Case) × Posed c question.now names.now table.now }
    requires s_value { (ls : List PlanLine) × (read_plan_lines s.now ≡ accepted ls) }
    ensures { StepsEnd question.now names.now table.now s.now result out.old out.new }
{
    let n = s.len();
    let mut at: usize = 0;
    let mut count: usize = 0;
    // no count: the next line begins where this one ended
    while at < n {
        let e = read_text::find(s, at, n, 10);
        let Some(k) = line_step(question, names, table, s, at + 1, e - 1) else {
            return Err(Cause::BeyondPddl.at(at));
        };
        put(out, count, k);
        count += 1;
        at = e + 1;
    }
    Ok(count)
}
