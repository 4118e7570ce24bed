// Layers of steps built from picks, which are handed over as a text or lent as words.
#![tactic(auto)]

ghost use Rattle.std.specs.Prelude.{◌≡◌, false, List, ℕ, ◌+◌, ◌/◌, ◌^◌, ◌≤◌, ◌<◌, length, Ok};
ghost use Rattle.std.proofs.Math.Option.{none};
ghost use Rattle.definitions.specs.Limits.{usual};
ghost use Rattle.definitions.specs.Sheet.Relations.{Tuple};
ghost use Rattle.definitions.specs.Sheet.Sheets.{Label};
ghost use Rattle.definitions.specs.Problem.Truth.{Case};
ghost use Rattle.definitions.specs.Problem.Atoms.{problem_of};
ghost use Rattle.definitions.specs.Problem.Actions.{actions};
ghost use Rattle.definitions.specs.Reply.Outcome.{as_text, as_numbers};
ghost use Rattle.definitions.specs.Reply.Layers.{case_window, build_layers};
ghost use Rattle.bits.specs.Table.{bit};
ghost use Rattle.read_tuples.specs.Labels.{LabelsAre};
ghost use Rattle.read_sheets.specs.Reading.{FactsRoom, PicksRoom};
ghost use Rattle.problem_action.specs.Decoded.{Grounded};
ghost use Rattle.problem_of_case.specs.Grounds.{Read};
ghost use Rattle.problem_of_case.specs.declared.Sized.{Sized};
ghost use Rattle.step_start.specs.Rows.{atoms_in};
ghost use Rattle.step_build.specs.Starts.{Prepared};
ghost use Rattle.open_case.specs.Fronts.{Filed, ReadyFront};
ghost use Rattle.open_case.specs.Replies.{result_of};
ghost use Rattle.call_build_layers.specs.Layers.{GivesLayers};
ghost use Rattle.call_build_layers.specs.Builds.{Answers, FromWords, FromText};
ghost use Rattle.call_build_layers.specs.Calls.{IsUpper};

use open_case::{Front, Reply};
use read_sheets::Opened;
use refusal::Cause;

// The most layers that a case's built steps can have.
fn upper_number(question: &[u8], o: Opened) -> usize
    requires { Read question.now o }
    ensures { IsUpper question.now o result }
{
    let sig = o.sig;
    let rule = o.rule;
    let n = o.n;
    let members = o.members;
    let ranges = problem_layout::ranges_of(n, sig.types, &members);
    let g = problem_of_case::relations_of(sig);
    let t = rule_rewrite::nodes_of(question, rule.from, rule.to, sig);
    problem_window::of_tables(n, ranges, t).upper
}

// The plain steps are built, then placed: 16, 17, or how many layers there are.
fn place_built(
    state: &mut [u64],
    steps: &mut [u32],
    ends: &mut [u32],
    table: &[usize],
    facts: &[u64],
    atoms: usize,
    picks: &[u64],
) -> Reply
    requires { Grounded table.now × (atoms_in table.now ≡ atoms) × (atoms ≤ 2 ^ 20) × ((atoms + 63) / 64 ≤ length state.old) }
    ensures { (c : Case) (F : List Tuple) → Prepared c F table.now facts.now picks.now atoms (length steps.old)
        → c.question.every ≡ none → actions (problem_of c) ≤ 4194304 → (case_window (problem_of c)).upper < 1024 → (case_window (problem_of c)).upper ≤ length ends.old
        → GivesLayers c (problem_of c) F state.old steps.old ends.old result state.new steps.new ends.new }
{
    let count = step_build::start_and_build(state, steps, table, facts, atoms, picks)?;
    Ok(step_place::place(state, table, steps, atoms, count.min(atoms), ends))
}

// Layers of a case that was opened, from picks that stand in words: 11, 23 of any case with an `every` line, 12 (picks, state, steps, ends),
// 10, 16, 17. Words past the needed length are not read. (Picks read from a text have words enough, and no spare bit.)
fn build_picks(
    f: Front,
    upper: usize,
    facts: &[u64],
    table: &[usize],
    picks: &[u64],
    state: &mut [u64],
    steps: &mut [u32],
    ends: &mut [u32],
) -> Reply
    requires by_index { (q : List ℕ) × ReadyFront q f facts.now table.now }
    requires atoms_bound { (m : Sized) → f.m ≡ Ok m → m.atoms ≤ 2 ^ 20 }
    ensures { FromWords f upper facts.now table.now picks.now state.old steps.old ends.old result
        state.new steps.new ends.new }
{
    let m = f.m?;
    if f.o.sig.every != 0 {
        return Err(Cause::HasEvery.at(0));
    }
    let held = step_picks::picks_length(table);
    if picks.len() < held {
        return Err(Cause::ShortBuffer.at(held));
    }
    let words = (m.atoms + 63) / 64;
    let bound = m.bound;
    if state.len() < words {
        return Err(Cause::ShortBuffer.at(words));
    }
    if steps.len() < bound {
        return Err(Cause::ShortBuffer.at(bound));
    }
    if ends.len() < upper {
        return Err(Cause::ShortBuffer.at(upper));
    }
    if let Some(j) = step_picks::spare_word(table, picks) {
        return Err(Cause::Repeated.at(j));
    }
    place_built(state, steps, ends, table, facts, m.atoms, &picks[..held])
}

// Layers of a case that was opened, from picks as a text: they are read into the lent words, which are enough and come in cleared.
fn build_listed(
    question: &[u8],
    site: &[u8],
    f: Front,
    labels: &[usize],
    facts: &[u64],
    table: &[usize],
    picks: &[u8],
    words: &mut [u64],
    state: &mut [u64],
    steps: &mut [u32],
    ends: &mut [u32],
) -> Reply
    requires ready_front { ReadyFront question.now f facts.now table.now × ((m : Sized) → f.m ≡ Ok m → m.atoms ≤ 2 ^ 20) × ((ls : List Label) × LabelsAre site.now labels.now f.o.n ls) }
    requires picks_room { PicksRoom f.o.sig f.o.n (length words.old) × (bit words.old ≡ λ i. false) }
    ensures { FromText question.now site.now f labels.now facts.now table.now picks.now
        state.old steps.old ends.old result state.new steps.new ends.new }
{
    let o = f.o;
    let sig = o.sig;
    read_sheets::picks(question, sig, picks, o.n, site, labels, words)?;
    let upper = upper_number(question, o);
    build_picks(f, upper, facts, table, words, state, steps, ends)
}

// Layers from picks as a text, of a case that was opened. The room for the picks stands here: a function that hands a refusal on by `?`
// clears all its room on its way in, the long one too.
fn build_opened(
    question: &[u8],
    site: &[u8],
    f: Front,
    labels: &[usize],
    facts: &[u64],
    table: &[usize],
    picks: &[u8],
    state: &mut [u64],
    steps: &mut [u32],
    ends: &mut [u32],
) -> Reply
    requires { Filed usual question.now site.now (Ok f) labels.now facts.now table.now }
    ensures { Answers usual question.now site.now (as_text picks.now) state.old steps.old ends.old result
        state.new steps.new ends.new }
{
    let o = f.o;
    // the room is made here: open_room lends beside two slices at the most, and these are three
    if o.n <= open_case::SMALL_SIZE {
        let mut few = [0u64; open_case::FEW_PICKS];
        return build_listed(
            question, site, f, labels, facts, table, picks, &mut few, state, steps, ends,
        );
    }
    let mut words = [0u64; open_case::PICKS];
    build_listed(
        question, site, f, labels, facts, table, picks, &mut words, state, steps, ends,
    )
}

// Layers from picks as a text; the words for the facts are lent.
fn build_text_in(
    question: &[u8],
    site: &[u8],
    picks: &[u8],
    state: &mut [u64],
    steps: &mut [u32],
    ends: &mut [u32],
    facts: &mut [u64],
) -> Reply
    requires { FactsRoom site.now 64 (length facts.old) × (bit facts.old ≡ λ i. false) }
    ensures { Answers usual question.now site.now (as_text picks.now) state.old steps.old ends.old result
        state.new steps.new ends.new }
{
    let mut labels = [0usize; read_sheets::LABELS];
    let mut table = [0usize; problem_table::TABLE];
    let f = open_case::open_usual(question, site, &mut labels, facts, &mut table)?;
    build_opened(
        question, site, f, &labels, facts, &table, picks, state, steps, ends,
    )
}

// Builds layers from picks that are handed over as a text.
pub fn build_layers_text(
    question: &[u8],
    site: &[u8],
    picks: &[u8],
    state: &mut [u64],
    steps: &mut [u32],
    ends: &mut [u32],
) -> Reply
    ensures answer { result_of result ≡ (build_layers usual question.now site.now (as_text picks.now) state.old steps.old ends.old).answer }
    ensures state { state.new ≡ (build_layers usual question.now site.now (as_text picks.now) state.old steps.old ends.old).state }
    ensures steps { steps.new ≡ (build_layers usual question.now site.now (as_text picks.now) state.old steps.old ends.old).steps }
    ensures ends { ends.new ≡ (build_layers usual question.now site.now (as_text picks.now) state.old steps.old ends.old).ends }
{
    // the room is made here: open_room lends beside two slices at the most, and these are three
    if open_case::is_small(site) {
        let mut few = [0u64; open_case::FEW];
        return build_text_in(question, site, picks, state, steps, ends, &mut few);
    }
    let mut facts = [0u64; open_case::FACTS];
    build_text_in(question, site, picks, state, steps, ends, &mut facts)
}

// Layers from picks that are lent as words; the words for the facts are lent too.
fn build_lent_in(
    question: &[u8],
    site: &[u8],
    picks: &[u64],
    state: &mut [u64],
    steps: &mut [u32],
    ends: &mut [u32],
    facts: &mut [u64],
) -> Reply
    requires { FactsRoom site.now 64 (length facts.old) × (bit facts.old ≡ λ i. false) }
    ensures { Answers usual question.now site.now (as_numbers picks.now) state.old steps.old ends.old result
        state.new steps.new ends.new }
{
    let mut table = [0usize; problem_table::TABLE];
    let f = open_case::open_case(question, site, facts, &mut table)?;
    let upper = upper_number(question, f.o);
    build_picks(f, upper, facts, &table, picks, state, steps, ends)
}

// Builds layers from picks that are lent as words.
pub fn build_layers_lent(
    question: &[u8],
    site: &[u8],
    picks: &[u64],
    state: &mut [u64],
    steps: &mut [u32],
    ends: &mut [u32],
) -> Reply
    ensures answer { result_of result ≡ (build_layers usual question.now site.now (as_numbers picks.now) state.old steps.old ends.old).answer }
    ensures state { state.new ≡ (build_layers usual question.now site.now (as_numbers picks.now) state.old steps.old ends.old).state }
    ensures steps { steps.new ≡ (build_layers usual question.now site.now (as_numbers picks.now) state.old steps.old ends.old).steps }
    ensures ends { ends.new ≡ (build_layers usual question.now site.now (as_numbers picks.now) state.old steps.old ends.old).ends }
{
    // the room is made here: open_room lends beside two slices at the most, and these are three
    if open_case::is_small(site) {
        let mut few = [0u64; open_case::FEW];
        return build_lent_in(question, site, picks, state, steps, ends, &mut few);
    }
    let mut facts = [0u64; open_case::FACTS];
    build_lent_in(question, site, picks, state, steps, ends, &mut facts)
}
