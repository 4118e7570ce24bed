// The desk program's reply (document 01, "The desk program"): every byte that it prints, for every input.
#![tactic(auto)]

ghost use Rattle.std.specs.Prelude.{◌≡◌, false, List, ℕ, ◌≤◌, length};
ghost use Rattle.definitions.specs.Limits.{early};
ghost use Rattle.definitions.specs.Refusal.{Result as «Outcome_of», refused, accepted};
ghost use Rattle.definitions.specs.Reply.Outcome.{Plan};
ghost use Rattle.refusal.specs.Numbers.{number_of};
ghost use Rattle.definitions.specs.Sheet.Relations.{Tuple};
ghost use Rattle.definitions.specs.Reply.Outcome.{written, as_text, take_steps, plan};
ghost use Rattle.definitions.specs.Reply.Desk.{printed, checked_plan, desk as «desk_of»};
ghost use Rattle.rows.specs.Values.{Most};
ghost use Rattle.bits.specs.Table.{bit};
ghost use Rattle.problem_table.specs.Lines.{table_length};
ghost use Rattle.read_tuples.specs.Labels.{NoLabels};
ghost use Rattle.read_sheets.specs.Reading.{FactsRoom};
ghost use Rattle.open_case.specs.Fronts.{Filed};
ghost use Rattle.call_desk.specs.Replied.{Replies, Ends, Reportable, report_of};
ghost use Rattle.call_desk.specs.Known.{Known};
ghost use Rattle.call_desk.specs.Planned.{Picked, IsPicked};
ghost use Rattle.call_desk.specs.Whole.{Front};

use problem_of_case::Sized;
use problem_sizes::Limits;
use read_sheets::Opened;
use refusal::{Cause, Refusal};

// Bytes for every reply: an input has at most 2,340 picks, whose lines have 57 bytes at the most, there are at most 8,192 steps, whose
// lines have 16, and the other lines have less than 512 together.
pub const ROOM: usize = 573952;

// The most elements, atoms and actions of a case that the program takes, and the largest bound where it has an `every` line.
const ELEMENTS: usize = 16;

const ATOMS: usize = 65536;

const ACTIONS: usize = 131072;

const STEPS: usize = 65536;

// Words for the facts of every such case, for its picks and for its state.
const FACTS: usize = 512;

const PICKS: usize = 256;

const WORDS: usize = 1024;

// A refusal is one line.
fn refuse(out: &mut [u8], e: Refusal) -> usize
    requires { 573952 ≤ length out.old }
    ensures { Replies (printed (refused (number_of e.cause) e.place)) out.old out.new result }
{
    print_line::no_line(out, 0, e.cause.number() as usize, e.place)
}

// Opens a case by the program's own limits.
fn open_early(
    question: &[u8],
    site: &[u8],
    labels: &mut [usize],
    facts: &mut [u64],
    table: &mut [usize],
) -> Result<open_case::Front, Refusal>
    requires facts_room { FactsRoom site.now 16 (length facts.old) × NoLabels labels.old × (bit facts.old ≡ λ i. false) }
    requires table_len { (length table.old ≡ table_length) × Most table.old 0 }
    ensures { Filed early question.now site.now result labels.new facts.new table.new }
{
    let limits = Limits {
        atoms: ATOMS,
        actions: ACTIONS,
        steps: STEPS,
    };
    open_case::open_filed(question, site, ELEMENTS, limits, labels, facts, table)
}

// The report of a plan: the sizes, counts and picks, a line for each step, and how many steps there are.
fn report(
    out: &mut [u8],
    question: &[u8],
    site: &[u8],
    labels: &[usize],
    o: Opened,
    m: Sized,
    words: &[u64],
    steps: &[u32],
) -> usize
    requires { Reportable question.now site.now o labels.now words.now steps.now × (573952 ≤ length out.old) }
    ensures { Replies (report_of question.now site.now o m labels.now words.now steps.now) out.old out.new result }
{
    let sig = o.sig;
    let count = steps.len();
    let headed = print_report::head(
        out, question, site, labels, sig, o.n, m.atoms, m.actions, m.bound, words,
    );
    let listed = print_line::step_lines(out, headed, steps, count);
    print_line::ok_line(out, listed, count)
}

// Steps of a case that was read: 11 or 23, then the steps one by one, and the picks that they set.
fn check_case(
    out: &mut [u8],
    question: &[u8],
    site: &[u8],
    labels: &[usize],
    f: open_case::Front,
    facts: &[u64],
    table: &[usize],
    steps: &[u32],
) -> Result<usize, Refusal>
    requires { Known question.now site.now f labels.now facts.now table.now × (length steps.now ≤ 2340) × (573952 ≤ length out.old) }
    ensures { (text : List ℕ) → take_steps (as_text text) ≡ accepted steps.now
        → Ends (checked_plan question.now site.now text) out.old out.new result }
{
    let m = f.m?;
    let words = (m.atoms + 63) / 64;
    let mut state = [0u64; WORDS];
    let ended = step_run::start_and_run(table, facts, steps, &mut state[..words]);
    open_case::reply_of(ended)?;
    let mut picks = [0u64; PICKS];
    step_picks::copy_picks(table, &state[..words], &mut picks);
    Ok(report(out, question, site, labels, f.o, m, &picks, steps))
}

// A third sheet of steps is checked.
fn check(out: &mut [u8], question: &[u8], site: &[u8], text: &[u8]) -> Result<usize, Refusal>
    requires { (length text.now ≤ 16384) × (573952 ≤ length out.old) }
    ensures { Ends (checked_plan question.now site.now text.now) out.old out.new result }
{
    let mut labels = [0usize; read_sheets::LABELS];
    let mut facts = [0u64; FACTS];
    let mut table = [0usize; problem_table::TABLE];
    let f = open_early(question, site, &mut labels, &mut facts, &mut table)?;
    let mut steps = [0u32; 9362];
    let count = read_sheets::steps(text, &mut steps)?;
    check_case(
        out,
        question,
        site,
        &labels,
        f,
        &facts,
        &table,
        &steps[..count],
    )
}

// Picks of a case that was read: 11 or 23, 12, and the steps built from them.
fn build_case(
    out: &mut [u8],
    question: &[u8],
    site: &[u8],
    labels: &[usize],
    f: open_case::Front,
    facts: &[u64],
    table: &[usize],
    picks: &[u64],
) -> Result<usize, Refusal>
    requires { IsPicked question.now site.now f labels.now facts.now table.now picks.now × (256 ≤ length picks.now) × (573952 ≤ length out.old) }
    ensures { (text : List ℕ) (F : List Tuple) (k : Known question.now site.now f labels.now facts.now table.now)
        → Picked question.now k.filed f.o text F picks.now
        → Ends (plan early question.now site.now (as_text text) 1024 8192) out.old out.new result }
{
    let m = f.m?;
    if 8192 < m.bound {
        return Err(Cause::ShortBuffer.at(m.bound));
    }
    let mut state = [0u64; WORDS];
    let mut steps = [0u32; 8192];
    let count = step_build::start_and_build(&mut state, &mut steps, table, facts, m.atoms, picks)?;
    Ok(report(out, question, site, labels, f.o, m, picks, &steps[..count]))
}

// From any other third sheet, which has picks, steps are built.
fn build(out: &mut [u8], question: &[u8], site: &[u8], text: &[u8]) -> Result<usize, Refusal>
    requires { (length text.now ≤ 16384) × (573952 ≤ length out.old) }
    ensures { Ends (plan early question.now site.now (as_text text.now) 1024 8192) out.old out.new result }
{
    let mut labels = [0usize; read_sheets::LABELS];
    let mut facts = [0u64; FACTS];
    let mut table = [0usize; problem_table::TABLE];
    let f = open_early(question, site, &mut labels, &mut facts, &mut table)?;
    let o = f.o;
    let sig = o.sig;
    let mut picks = [0u64; PICKS];
    read_sheets::picks(question, sig, text, o.n, site, &labels, &mut picks)?;
    build_case(out, question, site, &labels, f, &facts, &table, &picks)
}

// A report that was printed stays, a refusal is printed.
fn finish(out: &mut [u8], ended: Result<usize, Refusal>) -> usize
    requires { 573952 ≤ length out.old }
    ensures { (x : «Outcome_of» Plan) (first : List ℕ) → Ends x first out.old ended → Replies (printed x) first out.new result }
{
    match ended {
        Ok(count) => count,
        Err(e) => refuse(out, e),
    }
}

// What the desk program prints for an input, at the front of `out`, and how many bytes that is; the others stay.
pub fn reply(input: &[u8], out: &mut [u8; ROOM]) -> usize
    ensures count { result ≡ length («desk_of» input.now) }
    ensures bytes { out.new ≡ written («desk_of» input.now) out.old }
    ensures front { Front result out.new }
{
    if 16384 < input.len() {
        return refuse(out, Cause::TooLong.at(0));
    }
    let c = print_report::cut_input(input);
    let q = c.question;
    let s = c.site;
    if c.steps {
        let checked = check(out, &input[..q], &input[q..s], &input[s..]);
        return finish(out, checked);
    }
    let built = build(out, &input[..q], &input[q..s], &input[s..]);
    finish(out, built)
}
