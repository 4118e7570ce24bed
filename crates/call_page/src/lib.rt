// The proof on paper (document 02, job 9): one page of steps that were checked.
#![tactic(auto)]

ghost use Rattle.std.specs.Prelude.{◌≡◌, true, false, List, ℕ, ◌+◌, ◌-◌, ◌*◌, ◌^◌, ◌≤◌, ◌<◌, length, get_or, Ok};
ghost use Rattle.definitions.specs.Limits.{usual};
ghost use Rattle.definitions.specs.Problem.Atoms.{words_for};
ghost use Rattle.definitions.specs.Refusal.{accepted};
ghost use Rattle.definitions.specs.Reply.Outcome.{ThirdInput, as_text, as_numbers, take_steps};
ghost use Rattle.definitions.specs.Reply.Page.{lay_page};
ghost use Rattle.bits.specs.Table.{bit};
ghost use Rattle.problem_table.specs.Lines.{size_in};
ghost use Rattle.problem_action.specs.Decoded.{Grounded};
ghost use Rattle.step_start.specs.Rows.{atoms_in};
ghost use Rattle.read_sheets.specs.Reading.{FactsRoom, RoomFor};
ghost use Rattle.open_case.specs.Fronts.{Filed};
ghost use Rattle.open_case.specs.Replies.{result_of};
ghost use Rattle.print_units.specs.Units.{Short};
ghost use Rattle.print_page.specs.Elements.{Names};
ghost use Rattle.call_page.specs.Narrow.{Narrow};
ghost use Rattle.call_page.specs.Pages.{Printable, FoundBy, PageOf, PageAfter, Paged};

use open_case::{Front, Reply};
use print_page::Place;
use read_names::Signature;
use refusal::Cause;

// No steps have so many pages.
const PAGES: usize = 1000000;

// How long the label of element x is; 0 where it has none.
fn label_length(labels: &[usize], x: usize) -> usize
    requires { (2 * x + 1 < length labels.now) × (get_or labels.now (2 * x) 0 ≤ get_or labels.now (2 * x + 1) 0) }
    ensures { result ≡ get_or labels.now (2 * x + 1) 0 - get_or labels.now (2 * x) 0 }
{
    match print_line::label(labels, x) {
        Some(l) => l.to - l.from,
        None => 0,
    }
}

// Whether no element is printed by more than two bytes. Then every step has one line.
fn is_narrow(labels: &[usize], n: usize) -> bool
    requires { (site : List ℕ) × Short site labels.now n }
    ensures { result ≡ true → Narrow labels.now n }
{
    for x in 0..n {
        if 2 < label_length(labels, x) {
            return false;
        }
    }
    true
}

// The step that has the line of number `first`, as far as every step has an action.
fn first_step(
    site: &[u8],
    labels: &[usize],
    names: &[usize],
    table: &[usize],
    steps: &[u32],
    first: usize,
) -> Place
    requires grounded { Grounded table.now × ((question : List ℕ) × Names question names.now) × Short site.now labels.now (size_in table.now) }
    requires first_bound { first < 2 ^ 32 }
    ensures { (result.index ≤ length steps.now) × (result.line ≤ first) × (result.index < length steps.now → first < result.line + 6)
        × FoundBy site.now labels.now names.now table.now steps.now first result.index result.line }
{
    if is_narrow(labels, table[0]) {
        let index = first.min(steps.len());
        return Place { index, line: index };
    }
    print_page::find(site, labels, names, table, steps, first)
}

// The page of a number, of steps that reach the goal: its bytes, or `NoAction` where there is no such page. The pages before it are not laid out,
// and their lines are counted only where a step may have several.
fn lay_page(
    sig: Signature,
    question: &[u8],
    site: &[u8],
    labels: &[usize],
    table: &[usize],
    steps: &[u32],
    page: usize,
    out: &mut [u8],
) -> Reply
    requires printable { Printable question.now site.now labels.now table.now sig }
    requires in_bounds { 4380 ≤ length out.old }
    ensures { PageOf question.now site.now labels.now table.now sig steps.now page out.old result out.new }
{
    if page == 0 {
        return Err(Cause::NoAction.at(page));
    }
    if PAGES < page {
        return Err(Cause::NoAction.at(page));
    }
    let mut names = [0usize; print_page::NAMES];
    print_page::names_of(sig, &mut names);
    let first = print_page::LINES * (page - 1);
    let found = first_step(site, labels, &names, table, steps, first);
    let index = found.index;
    if index < steps.len() {
        let skip = first - found.line;
        let bytes = print_page::page(
            out, question, site, labels, &names, table, steps, index, skip, page,
        );
        return Ok(bytes);
    }
    Err(Cause::NoAction.at(page))
}

// Steps are run from the initial state on; where they reach the goal, the page is laid out.
fn run_and_lay(
    sig: Signature,
    question: &[u8],
    site: &[u8],
    labels: &[usize],
    facts: &[u64],
    table: &[usize],
    steps: &[u32],
    page: usize,
    state: &mut [u64],
    out: &mut [u8],
) -> Reply
    requires printable { Printable question.now site.now labels.now table.now sig }
    requires table_in_bounds { (words_for (atoms_in table.now) ≤ length state.old) × (4380 ≤ length out.old) }
    ensures { PageAfter question.now site.now labels.now table.now sig facts.now steps.now page state.old out.old result state.new out.new }
{
    let e = step_run::start_and_run(table, facts, steps, state);
    open_case::reply_of(e)?;
    lay_page(sig, question, site, labels, table, steps, page, out)
}

// A page of steps of a case that was opened: too large, a short buffer for the state or for the page, then the steps one by one and the page.
fn page_steps(
    f: Front,
    question: &[u8],
    site: &[u8],
    labels: &[usize],
    facts: &[u64],
    table: &[usize],
    steps: &[u32],
    page: usize,
    state: &mut [u64],
    out: &mut [u8],
) -> Reply
    requires { Filed usual question.now site.now (Ok f) labels.now facts.now table.now }
    ensures { (given : ThirdInput) → take_steps given ≡ accepted steps.now
        → Paged question.now site.now given page state.old out.old result state.new out.new }
{
    let m = f.m?;
    let words = (m.atoms + 63) / 64;
    if state.len() < words {
        return Err(Cause::ShortBuffer.at(words));
    }
    if out.len() < print_page::PAGE {
        return Err(Cause::ShortBuffer.at(print_page::PAGE));
    }
    let o = f.o;
    let sig = o.sig;
    run_and_lay(
        sig,
        question,
        site,
        labels,
        facts,
        table,
        steps,
        page,
        &mut state[..words],
        out,
    )
}

// The same of steps as a text: they are read into the list, which has room for them.
fn page_listed(
    f: Front,
    question: &[u8],
    site: &[u8],
    labels: &[usize],
    facts: &[u64],
    table: &[usize],
    steps: &[u8],
    list: &mut [u32],
    page: usize,
    state: &mut [u64],
    out: &mut [u8],
) -> Reply
    requires filed { Filed usual question.now site.now (Ok f) labels.now facts.now table.now }
    requires room_for { RoomFor steps.now (length list.old) }
    ensures { Paged question.now site.now (as_text steps.now) page state.old out.old result state.new out.new }
{
    let count = read_sheets::steps(steps, list)?;
    page_steps(
        f,
        question,
        site,
        labels,
        facts,
        table,
        &list[..count],
        page,
        state,
        out,
    )
}

// A page of steps as a text; the words for the facts and the list for the steps are lent.
fn page_text_with(
    question: &[u8],
    site: &[u8],
    steps: &[u8],
    page: usize,
    state: &mut [u64],
    out: &mut [u8],
    facts: &mut [u64],
    list: &mut [u32],
) -> Reply
    requires facts_room { FactsRoom site.now 64 (length facts.old) × (bit facts.old ≡ λ i. false) }
    requires room_for { RoomFor steps.now (length list.old) }
    ensures { Paged question.now site.now (as_text steps.now) page state.old out.old result state.new out.new }
{
    let mut labels = [0usize; read_sheets::LABELS];
    let mut table = [0usize; problem_table::TABLE];
    let f = open_case::open_usual(question, site, &mut labels, facts, &mut table)?;
    page_listed(
        f, question, site, &labels, facts, &table, steps, list, page, state, out,
    )
}

// The same with a list that goes by the text's length.
fn page_text_in(
    question: &[u8],
    site: &[u8],
    steps: &[u8],
    page: usize,
    state: &mut [u64],
    out: &mut [u8],
    facts: &mut [u64],
) -> Reply
    requires { FactsRoom site.now 64 (length facts.old) × (bit facts.old ≡ λ i. false) }
    ensures { Paged question.now site.now (as_text steps.now) page state.old out.old result state.new out.new }
{
    open_room::with_list_into_both(
        steps,
        state,
        out,
        |list: &mut [u32], state: &mut [u64], out: &mut [u8]| {
            page_text_with(question, site, steps, page, state, out, facts, list)
        },
    )
}

// Lays out a page of steps that are handed over as a text.
pub fn page_text(
    question: &[u8],
    site: &[u8],
    steps: &[u8],
    page: usize,
    state: &mut [u64],
    out: &mut [u8],
) -> Reply
    ensures answer { result_of result ≡ (lay_page usual question.now site.now (as_text steps.now) page state.old out.old).answer }
    ensures state { state.new ≡ (lay_page usual question.now site.now (as_text steps.now) page state.old out.old).state }
    ensures page { out.new ≡ (lay_page usual question.now site.now (as_text steps.now) page state.old out.old).page }
{
    open_room::with_facts_into_both(
        site,
        state,
        out,
        |facts: &mut [u64], state: &mut [u64], out: &mut [u8]| {
            page_text_in(question, site, steps, page, state, out, facts)
        },
    )
}

// A page of lent steps; the words for the facts are lent.
fn page_lent_in(
    question: &[u8],
    site: &[u8],
    steps: &[u32],
    page: usize,
    state: &mut [u64],
    out: &mut [u8],
    facts: &mut [u64],
) -> Reply
    requires { FactsRoom site.now 64 (length facts.old) × (bit facts.old ≡ λ i. false) }
    ensures { Paged question.now site.now (as_numbers steps.now) page state.old out.old result state.new out.new }
{
    let mut labels = [0usize; read_sheets::LABELS];
    let mut table = [0usize; problem_table::TABLE];
    let f = open_case::open_usual(question, site, &mut labels, facts, &mut table)?;
    if open_case::STEPS < steps.len() {
        return Err(Cause::TooLong.at(0));
    }
    page_steps(
        f, question, site, &labels, facts, &table, steps, page, state, out,
    )
}

// Lays out a page of steps that are lent as numbers.
pub fn page_lent(
    question: &[u8],
    site: &[u8],
    steps: &[u32],
    page: usize,
    state: &mut [u64],
    out: &mut [u8],
) -> Reply
    ensures answer { result_of result ≡ (lay_page usual question.now site.now (as_numbers steps.now) page state.old out.old).answer }
    ensures state { state.new ≡ (lay_page usual question.now site.now (as_numbers steps.now) page state.old out.old).state }
    ensures page { out.new ≡ (lay_page usual question.now site.now (as_numbers steps.now) page state.old out.old).page }
{
    open_room::with_facts_into_both(
        site,
        state,
        out,
        |facts: &mut [u64], state: &mut [u64], out: &mut [u8]| {
            page_lent_in(question, site, steps, page, state, out, facts)
        },
    )
}
