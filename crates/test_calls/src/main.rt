// The public calls, driven by a script: makes each call that the script on standard input asks for, and writes its reply with the
// buffers that were lent. Then it runs the desk program's reply on the inputs that are packed in data/inputs. The file `stdout` has what
// the vectors require (pack.py makes all three), so that the program is held to the vectors and not to itself.
//
// The script's lines, words a space apart and numbers in decimal; a number that is missing is 0:
//
//     # ..                      a comment; an empty line is one too
//     question                  the lines that follow, up to a line with a full stop alone, are the question of the calls below
//     site                      the same, the site
//     text                      the same, the steps or the picks that are sent as a text
//     lent N N ..               these numbers are the steps or the picks that are lent to the calls below
//     ends N N ..               where each layer of the lent steps ends
//     lists F L F L ..          where each list of steps begins among the lent ones, and its length
//
//     sizes                     the sizes
//     tally                     nodes, atoms and actions, over the limits or not
//     action K                  the action of the number K
//     allowances ROOM           how far one pick moves the built steps
//     find PICKS                the least picks that meet the rule
//     window                    how many layers plans have at the least, and built ones at the most
//     monotone                  whether all tuples picked meet a rule that only ever wants more
//     check_text STATE          checks the text's steps
//     picks_text PICKS STATE    reads the picks of the text's steps
//     build_text STATE STEPS    builds the steps of the text's picks
//     judge_text                whether the rule is true of the text's picks
//     page_text PAGE STATE OUT  a page of the text's steps on paper
//     check STATE, picks PICKS STATE, build STATE STEPS, judge, page PAGE STATE OUT
//                               the same of what is lent
//     build_layers_text STATE STEPS ENDS, build_layers STATE STEPS ENDS
//                               builds layers of the text's picks, or of those that are lent
//     check_layers STATE        checks the lent steps, layer by layer
//     pddl_domain OUT           the domain as PDDL
//     pddl_instance OUT         the instance
//     pddl_plan_text OUT, pddl_plan OUT
//                               a plan of the text's steps, or of those that are lent
//     pddl_read STEPS           the steps of the plan that is the text
//     tries STATE               tries each list of lent steps
//
// Numbers after a call are the lengths of the buffers that it is lent, but for K and PAGE. A buffer begins as sevens and is written whole, one
// of more than 64 entries as the SHA-256 of its numbers; bytes as theirs, and where they are refused as `kept`, or a page's in hexadecimal. An
// answer is a line: an equals sign, the reply's number and place (0 and what success tells), then what the call handed out and its buffers,
// each under its name. Any other line ends the run, and is written, with all that follows it, under a word that says so.
#![tactic(auto)]

ghost use Rattle.std.specs.Prelude.{◌≤◌};

use call_tries::Try;
use open_case::Reply;
use problem_table::{Act, ChoiceAct, TupleAct};
use refusal::Refusal;
use std::fs::File;

// A script has no more bytes; what follows them is not read.
const SCRIPT: usize = 1048576;

// As many words, steps and numbers a call is lent at the most.
const STATE: usize = 1024;

const PICKS: usize = 64;

const STEPS: usize = 8192;

const NUMBERS: usize = 512;

const PAGE: usize = 16384;

// More entries of a buffer are told by their digest, whose text has no more bytes.
const PRINTED: usize = 64;

const TEXT: usize = 131072;

// The texts whose lines follow a line of their name: the question, the site, and steps or picks.
#[derive(Clone, Copy)]
enum Sheet {
    Question,
    Site,
    Text,
}

// What stands for the calls below, and the text whose lines are being read, with the place that they begin at.
#[derive(Clone, Copy)]
struct Script<'a> {
    question: &'a [u8],
    site: &'a [u8],
    text: &'a [u8],
    lent: &'a [u8],
    ends: &'a [u8],
    lists: &'a [u8],
    open: Option<(Sheet, usize)>,
}

// ---- what is written

// A number after a space.
fn show(n: u64) {
    io::write_all(1, b" ");
    io::print_decimal(1, n);
}

// The head of an answer.
fn show_two(number: u32, place: usize) {
    io::write_all(1, b"=");
    show(number as u64);
    show(place as u64);
}

fn show_refusal(e: Refusal) {
    show_two(e.cause.number(), e.place);
}

fn show_reply(r: Reply) {
    match r {
        Ok(count) => show_two(0, count),
        Err(e) => show_refusal(e),
    }
}

// Half a byte in hexadecimal.
fn show_half(k: u8) {
    let digit = if k < 10 { 48 + k } else { 87 + k % 16 };
    io::write_all(1, &[digit]);
}

// Bytes in hexadecimal.
fn show_bytes(out: &[u8]) {
    for b in out {
        show_half(*b / 16);
        show_half(*b % 16);
    }
}

// A text by its digest: eight numbers of 32 bits.
fn show_digest(text: &[u8]) {
    let x = test_digest::sha256(text);
    io::write_all(1, b" sha256:");
    for k in [x.a, x.b, x.c, x.d, x.e, x.f, x.g, x.h] {
        show_bytes(&((k % 4294967296) as u32).to_be_bytes());
    }
}

// The digest of numbers in decimal, a space between any two.
fn digest_words<T: Copy + Into<u64>>(w: &[T]) {
    let mut text = [0u8; TEXT];
    let mut end: usize = 0;
    for k in w {
        if 0 < end {
            end = print_bytes::byte(&mut text, end, 32);
        }
        let number: u64 = (*k).into();
        end = print_bytes::decimal(&mut text, end, number as usize);
    }
    if let Some(said) = text.get(..end) {
        show_digest(said);
    }
}

// Words or steps after the name of their buffer, many of them by the digest of their numbers.
fn show_words<T: Copy + Into<u64>>(what: &[u8], w: &[T]) {
    io::write_all(1, what);
    if PRINTED < w.len() {
        digest_words(w);
        return;
    }
    for k in w {
        show((*k).into());
    }
}

// Bytes of a call that was refused: whether they are as they were.
fn show_kept_bytes(out: &[u8]) {
    if out.iter().all(|b| *b == 7) {
        io::write_all(1, b" kept");
        return;
    }
    show_digest(out);
}

// The bytes of a page that was refused.
fn show_refused(out: &[u8]) {
    if PRINTED < out.len() {
        show_kept_bytes(out);
        return;
    }
    if 0 < out.len() {
        io::write_all(1, b" ");
        show_bytes(out);
    }
}

// The bytes that were lent for a page.
fn show_page(r: Reply, out: &[u8]) {
    io::write_all(1, b" out");
    match r {
        Ok(_) => show_digest(out),
        Err(_) => show_refused(out),
    }
}

// The bytes that were lent for a text of PDDL.
fn show_text(r: Reply, out: &[u8]) {
    show_reply(r);
    io::write_all(1, b" out");
    match r {
        Ok(_) => show_digest(out),
        Err(_) => show_kept_bytes(out),
    }
}

// A kind of action with a choice, and its numbers.
fn show_choice(kind: &[u8], a: ChoiceAct) {
    io::write_all(1, kind);
    show(a.node as u64);
    show(a.row as u64);
    show(a.choice as u64);
}

// A kind of action on a tuple, and its numbers.
fn show_tuple(kind: &[u8], a: TupleAct) {
    io::write_all(1, kind);
    show(a.relation as u64);
    show(a.row as u64);
}

// An action's kind and its numbers.
fn show_action(a: Act) {
    show_two(0, 0);
    match a {
        Act::Set(x) => show_tuple(b" set", x),
        Act::Begin => {
            io::write_all(1, b" begin");
        }
        Act::And(x) => {
            io::write_all(1, b" and");
            show(x.node as u64);
            show(x.row as u64);
        }
        Act::Or(x) => show_choice(b" or", x),
        Act::Exists(x) => show_choice(b" exists", x),
        Act::Forall(x) => show_choice(b" forall", x),
        Act::Goal => {
            io::write_all(1, b" goal");
        }
        Act::RoundEnd => {
            io::write_all(1, b" round-end");
        }
        Act::MarkIn(x) => show_tuple(b" mark-in", x),
        Act::MarkOut(x) => show_tuple(b" mark-out", x),
        Act::Nothing => {
            io::write_all(1, b" nothing");
        }
    }
}

// ---- calls on a case alone

fn sizes(question: &[u8], site: &[u8]) -> bool {
    match call_sizes::sizes(question, site) {
        Ok(s) => {
            show_two(0, 0);
            show(s.elements as u64);
            show(s.atoms as u64);
            show(s.actions as u64);
            show(s.bound as u64);
        }
        Err(e) => {
            show_refusal(e);
            io::write_all(1, b" 7 7 7 7");
        }
    }
    true
}

fn tally(question: &[u8], site: &[u8]) -> bool {
    match call_sizes::tally(question, site) {
        Ok(t) => {
            io::write_all(1, b"=");
            show(t.nodes as u64);
            show(t.atoms as u64);
            show(t.actions as u64);
        }
        Err(e) => show_refusal(e),
    }
    true
}

fn action(question: &[u8], site: &[u8], k: usize) -> bool {
    match call_action::action(question, site, k) {
        Ok(a) => show_action(a),
        Err(e) => show_refusal(e),
    }
    true
}

fn window(question: &[u8], site: &[u8]) -> bool {
    match call_window::window(question, site) {
        Ok(w) => {
            show_two(0, 0);
            show(w.lower as u64);
            show(w.upper as u64);
        }
        Err(e) => {
            show_refusal(e);
            io::write_all(1, b" 7 7");
        }
    }
    true
}

// ---- Calls by what they are lent, with so much of each buffer. Each says whether there is as much.

// A call that is lent one buffer of words, whose name is written before them.
fn on_words<F: FnOnce(&mut [u64]) -> Reply>(
    what: &[u8],
    buffer: &mut [u64],
    room: usize,
    call: F,
) -> bool
    requires { F.IsAlwaysCallable call }
{
    let Some(words) = buffer.get_mut(..room) else {
        return false;
    };
    show_reply(call(words));
    show_words(what, words);
    true
}

// A call that is lent words for a state.
fn on_state<F: FnOnce(&mut [u64]) -> Reply>(room: usize, call: F) -> bool
    requires { F.IsAlwaysCallable call }
{
    on_words(b" state", &mut [7; STATE], room, call)
}

// A call that is lent words for picks.
fn on_picks<F: FnOnce(&mut [u64]) -> Reply>(what: &[u8], room: usize, call: F) -> bool
    requires { F.IsAlwaysCallable call }
{
    on_words(what, &mut [7; PICKS], room, call)
}

// A call that reads picks, and is lent words for them and for a state.
fn on_reading<F: FnOnce(&mut [u64], &mut [u64]) -> Reply>(n: [usize; 4], call: F) -> bool
    requires { F.IsAlwaysCallable call }
{
    let mut picks = [7u64; PICKS];
    let mut state = [7u64; STATE];
    let Some(picks) = picks.get_mut(..n[0]) else {
        return false;
    };
    let Some(state) = state.get_mut(..n[1]) else {
        return false;
    };
    show_reply(call(picks, state));
    show_words(b" picks", picks);
    show_words(b" state", state);
    true
}

// A call that builds steps, and is lent room for a state and for them.
fn on_steps<F: FnOnce(&mut [u64], &mut [u32]) -> Reply>(n: [usize; 4], call: F) -> bool
    requires { F.IsAlwaysCallable call }
{
    let mut state = [7u64; STATE];
    let mut steps = [7u32; STEPS];
    let Some(state) = state.get_mut(..n[0]) else {
        return false;
    };
    let Some(steps) = steps.get_mut(..n[1]) else {
        return false;
    };
    show_reply(call(state, steps));
    show_words(b" state", state);
    show_words(b" steps", steps);
    true
}

// A call that builds layers, and is lent room for a state, for their steps and for where they end.
fn on_layers<F: FnOnce(&mut [u64], &mut [u32], &mut [u32]) -> Reply>(n: [usize; 4], call: F) -> bool
    requires { F.IsAlwaysCallable call }
{
    let mut state = [7u64; STATE];
    let mut steps = [7u32; STEPS];
    let mut ends = [7u32; NUMBERS];
    let Some(state) = state.get_mut(..n[0]) else {
        return false;
    };
    let Some(steps) = steps.get_mut(..n[1]) else {
        return false;
    };
    let Some(ends) = ends.get_mut(..n[2]) else {
        return false;
    };
    show_reply(call(state, steps, ends));
    show_words(b" state", state);
    show_words(b" steps", steps);
    show_words(b" ends", ends);
    true
}

// A call that writes a page, and is lent room for a state and for its bytes; the page's own number comes first.
fn on_page<F: FnOnce(&mut [u64], &mut [u8]) -> Reply>(n: [usize; 4], call: F) -> bool
    requires { F.IsAlwaysCallable call }
{
    let mut state = [7u64; STATE];
    let mut out = [7u8; PAGE];
    let Some(state) = state.get_mut(..n[1]) else {
        return false;
    };
    let Some(out) = out.get_mut(..n[2]) else {
        return false;
    };
    let r = call(state, out);
    show_reply(r);
    show_words(b" state", state);
    show_page(r, out);
    true
}

// A call that writes a text of PDDL, and is lent room for its bytes.
fn on_text<F: FnOnce(&mut [u8]) -> Reply>(room: usize, call: F) -> bool
    requires { F.IsAlwaysCallable call }
{
    let mut out = [7u8; PAGE];
    let Some(out) = out.get_mut(..room) else {
        return false;
    };
    let r = call(out);
    show_text(r, out);
    true
}

// The steps of a plan that is a text.
fn read_plan(question: &[u8], site: &[u8], text: &[u8], many: usize) -> bool {
    let mut steps = [7u32; STEPS];
    let Some(steps) = steps.get_mut(..many) else {
        return false;
    };
    show_reply(call_plan_read::read_plan(question, site, text, steps));
    show_words(b" steps", steps);
    true
}

// Tries the lists that pairs of numbers name, whose records come in as sevens.
fn tries(question: &[u8], site: &[u8], steps: &[u32], lists: &[u32], room: usize) -> bool {
    let mut state = [7u64; STATE];
    let mut tries = [Try {
        first: 0,
        length: 0,
        number: 7,
        place: 7,
    }; NUMBERS];
    let Some(state) = state.get_mut(..room) else {
        return false;
    };
    let Some(tries) = tries.get_mut(..lists.len() / 2) else {
        return false;
    };
    for (record, list) in tries.iter_mut().zip(lists.chunks_exact(2)) {
        record.first = list[0];
        record.length = list[1];
    }
    let r = call_tries::try_lists(question, site, steps, tries, state);
    show_two(r.number, r.place);
    io::write_all(1, b" tries");
    for record in tries {
        show(record.first as u64);
        show(record.length as u64);
        show(record.number as u64);
        show(record.place);
    }
    show_words(b" state", state);
    true
}

// ---- the script

// The number that a word writes.
fn decimal(word: &[u8]) -> Option<u64> {
    if word.is_empty() {
        return None;
    }
    let mut v: u64 = 0;
    for c in word {
        if !c.is_ascii_digit() {
            return None;
        }
        v = v.checked_mul(10)?.checked_add((*c - 48) as u64)?;
    }
    Some(v)
}

// The numbers of the rest of a line, a space before each, at the front of `out`: none where one is no number, or where there are too many.
fn numbers<'a, T: TryFrom<u64> + Copy>(rest: &[u8], out: &'a mut [T]) -> Option<&'a [T]>
where
    T::Error: Drop,
{
    let mut n = 0;
    for word in rest.split(|b| *b == 32).skip(1) {
        let k = T::try_from(decimal(word)?).ok()?;
        *out.get_mut(n)? = k;
        n += 1;
    }
    out.get(..n)
}

// Makes the call that a word names, if it is one on a case alone.
fn call_on_case(word: &[u8], question: &[u8], site: &[u8], n: [usize; 4]) -> bool {
    match word {
        b"sizes" => sizes(question, site),
        b"tally" => tally(question, site),
        b"action" => action(question, site, n[0]),
        b"allowances" => on_picks(b" allowances", n[0], |words| {
            call_allowance::allowances(question, site, words)
        }),
        b"find" => on_picks(
            b" picks",
            n[0],
            |picks| call_find::find(question, site, picks),
        ),
        b"monotone" => {
            show_reply(call_monotone::monotone(question, site));
            true
        }
        b"window" => window(question, site),
        b"pddl_domain" => on_text(n[0], |out| call_domain::domain(question, site, out)),
        b"pddl_instance" => on_text(n[0], |out| call_instance::instance(question, site, out)),
        _ => false,
    }
}

// The same for calls on a text.
fn call_on_text(word: &[u8], question: &[u8], site: &[u8], text: &[u8], n: [usize; 4]) -> bool {
    match word {
        b"check_text" => on_state(n[0], |state| {
            call_check::check_text(question, site, text, state)
        }),
        b"picks_text" => on_reading(n, |picks, state| {
            call_read::picks_text(question, site, text, picks, state)
        }),
        b"build_text" => on_steps(n, |state, steps| {
            call_build::build_text(question, site, text, state, steps)
        }),
        b"judge_text" => {
            show_reply(call_judge::judge_text(question, site, text));
            true
        }
        b"page_text" => on_page(n, |state, out| {
            call_page::page_text(question, site, text, n[0], state, out)
        }),
        b"build_layers_text" => on_layers(n, |state, steps, ends| {
            call_build_layers::build_layers_text(question, site, text, state, steps, ends)
        }),
        b"pddl_plan_text" => on_text(n[0], |out| call_plan::plan_text(question, site, text, out)),
        b"pddl_read" => read_plan(question, site, text, n[0]),
        _ => false,
    }
}

// The same for calls on lent picks.
fn call_on_picks(word: &[u8], question: &[u8], site: &[u8], lent: &[u64], n: [usize; 4]) -> bool {
    match word {
        b"build" => on_steps(n, |state, steps| {
            call_build::build_lent(question, site, lent, state, steps)
        }),
        b"judge" => {
            show_reply(call_judge::judge_lent(question, site, lent));
            true
        }
        b"build_layers" => on_layers(n, |state, steps, ends| {
            call_build_layers::build_layers_lent(question, site, lent, state, steps, ends)
        }),
        _ => false,
    }
}

// The same for calls on lent steps, and lists of them.
fn call_on_steps(
    word: &[u8],
    question: &[u8],
    site: &[u8],
    steps: &[u32],
    lists: &[u32],
    n: [usize; 4],
) -> bool {
    match word {
        b"check" => on_state(n[0], |state| {
            call_check::check_lent(question, site, steps, state)
        }),
        b"picks" => on_reading(n, |picks, state| {
            call_read::picks_lent(question, site, steps, picks, state)
        }),
        b"tries" => tries(question, site, steps, lists, n[0]),
        b"page" => on_page(n, |state, out| {
            call_page::page_lent(question, site, steps, n[0], state, out)
        }),
        b"pddl_plan" => on_text(n[0], |out| call_plan::plan_lent(question, site, steps, out)),
        _ => false,
    }
}

// Makes the call of a line on what is lent as steps.
fn make_with_steps(t: Script, word: &[u8], n: [usize; 4]) -> bool {
    let mut steps = [0u32; NUMBERS];
    let mut lists = [0u32; NUMBERS];
    let Some(steps) = numbers(t.lent, &mut steps) else {
        return false;
    };
    let Some(lists) = numbers(t.lists, &mut lists) else {
        return false;
    };
    call_on_steps(word, t.question, t.site, steps, lists, n)
}

// Makes the call of a line on what is lent, as picks or as steps. Lists are numbers for all of these calls.
fn make_lent(t: Script, word: &[u8], n: [usize; 4]) -> bool {
    let mut lent = [0u64; NUMBERS];
    let mut lists = [0u64; NUMBERS];
    let Some(lent) = numbers(t.lent, &mut lent) else {
        return false;
    };
    if numbers(t.lists, &mut lists).is_none() {
        return false;
    }
    call_on_picks(word, t.question, t.site, lent, n) || make_with_steps(t, word, n)
}

// Checks layers: the lent steps, and where they end.
fn make_layers(t: Script, n: [usize; 4]) -> bool {
    let mut steps = [0u32; NUMBERS];
    let mut ends = [0u32; NUMBERS];
    let Some(steps) = numbers(t.lent, &mut steps) else {
        return false;
    };
    let Some(ends) = numbers(t.ends, &mut ends) else {
        return false;
    };
    on_state(n[0], |state| {
        call_check_layers::check_layers(t.question, t.site, steps, ends, state)
    })
}

// Makes the call of a line: its word, and its numbers, of which no call has more than three.
fn make(t: Script, word: &[u8], rest: &[u8]) -> bool {
    let mut n = [0usize; 4];
    if numbers(rest, &mut n).is_none() {
        return false;
    }
    if call_on_case(word, t.question, t.site, n)
        || call_on_text(word, t.question, t.site, t.text, n)
    {
        return true;
    }
    match word {
        b"check_layers" => make_layers(t, n),
        _ => make_lent(t, word, n),
    }
}

// A line below `question`, `site` or `text`, from `at` on: the text whose lines begin at `from` ends before a line with a full stop.
fn read_on<'a>(
    s: &'a [u8],
    line: &[u8],
    at: usize,
    sheet: Sheet,
    from: usize,
    t: Script<'a>,
) -> Script<'a> {
    if !matches!(line, b".") {
        return t;
    }
    let text = s.get(from..at).unwrap_or(b"");
    let ended = Script { open: None, ..t };
    match sheet {
        Sheet::Question => Script {
            question: text,
            ..ended
        },
        Sheet::Site => Script {
            site: text,
            ..ended
        },
        Sheet::Text => Script { text, ..ended },
    }
}

// A line outside of texts, after which the next begins at `next`: none where it is no line of a script.
fn follow<'a>(line: &'a [u8], next: usize, t: Script<'a>) -> Option<Script<'a>> {
    let end = line.iter().position(|b| *b == 32).unwrap_or(line.len());
    let (word, rest) = line.split_at(end);
    match word {
        b"" | b"#" => {}
        b"question" => {
            let open = Some((Sheet::Question, next));
            return Some(Script { open, ..t });
        }
        b"site" => {
            let open = Some((Sheet::Site, next));
            return Some(Script { open, ..t });
        }
        b"text" => {
            let open = Some((Sheet::Text, next));
            return Some(Script { open, ..t });
        }
        b"lent" => return Some(Script { lent: rest, ..t }),
        b"ends" => return Some(Script { ends: rest, ..t }),
        b"lists" => return Some(Script { lists: rest, ..t }),
        _ => {
            if !make(t, word, rest) {
                return None;
            }
            io::write_all(1, b"\n");
        }
    }
    Some(t)
}

// Follows a script, and gives where a line stands that is none.
fn run(s: &[u8]) -> Option<usize> {
    let mut t = Script {
        question: b"",
        site: b"",
        text: b"",
        lent: b"",
        ends: b"",
        lists: b"",
        open: None,
    };
    let mut at = 0;
    // No `for`: the next line begins where this one ends.
    while at < s.len() {
        let rest = &s[at..];
        let Some(length) = rest.iter().position(|b| *b == 10) else {
            return Some(at);
        };
        let line = &rest[..length];
        let next = at + length + 1;
        if let Some((sheet, from)) = t.open {
            t = read_on(s, line, at, sheet, from, t);
        } else if let Some(followed) = follow(line, next, t) {
            t = followed;
        } else {
            return Some(at);
        }
        at = next;
    }
    t.open.map(|(_, from)| from)
}

// Reads the script, follows it, and writes what is none of it.
fn follow_input(script: &mut [u8]) {
    let count = io::read_full(0, script);
    let Some(script) = script.get(..count) else {
        return;
    };
    if let Some(rest) = run(script).and_then(|at| script.get(at..)) {
        io::write_all(1, b"This is no line of a script: ");
        io::write_all(1, rest);
    }
}

// The check runs out of stack where so long an array is made and cut in one function, so it is lent whole to this one.
fn run_script(script: &mut [u8; SCRIPT]) {
    follow_input(script);
}

// ---- the desk program's inputs

// A decimal digit; 0 for any other byte.
fn digit(b: u8) -> usize
    ensures { result ≤ 9 }
{
    if b.is_ascii_digit() {
        return (b - 48) as usize;
    }
    0
}

// The length in a header.
fn length_in(head: [u8; 11]) -> usize {
    let low = digit(head[7]) * 100 + digit(head[8]) * 10 + digit(head[9]);
    digit(head[5]) * 10000 + digit(head[6]) * 1000 + low
}

// Writes an input's name and reply.
fn write_desk(name: &[u8], input: &[u8]) {
    let mut out = [0u8; call_desk::ROOM];
    let length = call_desk::reply(input, &mut out);
    io::write_all(1, name);
    io::write_all(1, b"\n");
    io::write_all(1, &out[..length]);
}

// Reads an input that has as many bytes as `input`, writes its reply, and tells whether it was there.
fn desk(file: &mut File, name: &[u8], input: &mut [u8]) -> bool {
    if read_input::read_input(file, input).unwrap_or(0) < input.len() {
        return false;
    }
    write_desk(name, input);
    true
}

// Reads one header (a name of four bytes, a tab, five digits for the length of the input, a line's end) and its input, and tells whether
// there was one. Where a read fails there is none.
fn run_input(file: &mut File) -> bool {
    let mut head = [0u8; 11];
    if read_input::read_input(file, &mut head).unwrap_or(0) < 11 {
        return false;
    }
    let mut input = [0u8; 100000];
    match input.get_mut(..length_in(head)) {
        Some(input) => desk(file, &head[..4], input),
        None => false,
    }
}

// There are no more than 10,000 names of four digits.
fn run_inputs(file: &mut File) {
    for _ in 0..10000 {
        if !run_input(file) {
            break;
        }
    }
}

fn main(rt: HostRuntime) -> std::io::Result<()> {
    let mut script = [0u8; SCRIPT];
    run_script(&mut script);
    match File::open(&rt, "inputs") {
        Ok(mut file) => {
            run_inputs(&mut file);
            Ok(())
        }
        Err(error) => eprintln!(rt; "inputs: {error}"),
    }
}
