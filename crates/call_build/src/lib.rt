// Steps built from picks, which are handed over as a text or lent as words.
#![tactic(auto)]

ghost use Rattle.std.specs.Prelude.{◌≡◌, false, List, ℕ, ◌^◌, ◌≤◌, length, Ok};
ghost use Rattle.definitions.specs.Limits.{usual};
ghost use Rattle.definitions.specs.Sheet.Sheets.{Label};
ghost use Rattle.definitions.specs.Reply.Outcome.{as_text, as_numbers, build_steps};
ghost use Rattle.bits.specs.Table.{bit};
ghost use Rattle.read_tuples.specs.Labels.{LabelsAre};
ghost use Rattle.read_sheets.specs.Reading.{FactsRoom, PicksRoom};
ghost use Rattle.problem_of_case.specs.declared.Sized.{Sized};
ghost use Rattle.open_case.specs.Fronts.{ReadyFront};
ghost use Rattle.open_case.specs.Replies.{result_of};
ghost use Rattle.call_build.specs.Builds.{Answers, FromWords, FromText};

use open_case::{Front, Reply};
use refusal::Cause;

// Steps of a case that was opened, from picks that stand in words: 11, 12 (picks, state, steps), 10, 16, 17. Words past the needed
// length are not read. (Picks read from a text have words enough, and no spare bit.)
fn build_picks(
    f: Front,
    facts: &[u64],
    table: &[usize],
    picks: &[u64],
    state: &mut [u64],
    steps: &mut [u32],
) -> Reply
    requires by_index { (q : List ℕ) × ReadyFront q f facts.now table.now }
    requires atoms_bound { (m : Sized) → f.m ≡ Ok m → m.atoms ≤ 2 ^ 20 }
    ensures { FromWords f facts.now table.now picks.now state.old steps.old result state.new steps.new }
{
    let m = f.m?;
    let held = step_picks::picks_length(table);
    if picks.len() < held {
        return Err(Cause::ShortBuffer.at(held));
    }
    let words = (m.atoms + 63) / 64;
    let bound = m.bound;
    if state.len() < words {
        return Err(Cause::ShortBuffer.at(words));
    }
    if steps.len() < bound {
        return Err(Cause::ShortBuffer.at(bound));
    }
    if let Some(j) = step_picks::spare_word(table, picks) {
        return Err(Cause::Repeated.at(j));
    }
    let count = step_build::start_and_build(state, steps, table, facts, m.atoms, &picks[..held])?;
    Ok(count)
}

// Steps of a case that was opened, from picks as a text: they are read into the lent words, which are enough and come in cleared.
fn build_listed(
    question: &[u8],
    site: &[u8],
    f: Front,
    labels: &[usize],
    facts: &[u64],
    table: &[usize],
    picks: &[u8],
    words: &mut [u64],
    state: &mut [u64],
    steps: &mut [u32],
) -> Reply
    requires ready_front { ReadyFront question.now f facts.now table.now × ((m : Sized) → f.m ≡ Ok m → m.atoms ≤ 2 ^ 20) × ((ls : List Label) × LabelsAre site.now labels.now f.o.n ls) }
    requires picks_room { PicksRoom f.o.sig f.o.n (length words.old) × (bit words.old ≡ λ i. false) }
    ensures { FromText question.now site.now f labels.now facts.now table.now picks.now state.old steps.old result state.new steps.new }
{
    let o = f.o;
    let sig = o.sig;
    read_sheets::picks(question, sig, picks, o.n, site, labels, words)?;
    build_picks(f, facts, table, words, state, steps)
}

// Steps from picks as a text; the words for the facts are lent.
fn build_text_in(
    question: &[u8],
    site: &[u8],
    picks: &[u8],
    state: &mut [u64],
    steps: &mut [u32],
    facts: &mut [u64],
) -> Reply
    requires { FactsRoom site.now 64 (length facts.old) × (bit facts.old ≡ λ i. false) }
    ensures { Answers usual question.now site.now (as_text picks.now) state.old steps.old result state.new steps.new }
{
    let mut labels = [0usize; read_sheets::LABELS];
    let mut table = [0usize; problem_table::TABLE];
    let f = open_case::open_usual(question, site, &mut labels, facts, &mut table)?;
    open_room::with_picks_into_both(
        f.o.n,
        state,
        steps,
        |words: &mut [u64], state: &mut [u64], steps: &mut [u32]| {
            build_listed(
                question, site, f, &labels, facts, &table, picks, words, state, steps,
            )
        },
    )
}

// Builds steps from picks that are handed over as a text.
pub fn build_text(
    question: &[u8],
    site: &[u8],
    picks: &[u8],
    state: &mut [u64],
    steps: &mut [u32],
) -> Reply
    ensures answer { result_of result ≡ (build_steps usual question.now site.now (as_text picks.now) state.old steps.old).answer }
    ensures state { state.new ≡ (build_steps usual question.now site.now (as_text picks.now) state.old steps.old).state }
    ensures steps { steps.new ≡ (build_steps usual question.now site.now (as_text picks.now) state.old steps.old).steps }
{
    open_room::with_facts_into_both(
        site,
        state,
        steps,
        |facts: &mut [u64], state: &mut [u64], steps: &mut [u32]| {
            build_text_in(question, site, picks, state, steps, facts)
        },
    )
}

// Steps from picks that are lent as words; the words for the facts are lent too.
fn build_lent_in(
    question: &[u8],
    site: &[u8],
    picks: &[u64],
    state: &mut [u64],
    steps: &mut [u32],
    facts: &mut [u64],
) -> Reply
    requires { FactsRoom site.now 64 (length facts.old) × (bit facts.old ≡ λ i. false) }
    ensures { Answers usual question.now site.now (as_numbers picks.now) state.old steps.old result state.new steps.new }
{
    let mut table = [0usize; problem_table::TABLE];
    let f = open_case::open_case(question, site, facts, &mut table)?;
    build_picks(f, facts, &table, picks, state, steps)
}

// Builds steps from picks that are lent as words.
pub fn build_lent(
    question: &[u8],
    site: &[u8],
    picks: &[u64],
    state: &mut [u64],
    steps: &mut [u32],
) -> Reply
    ensures answer { result_of result ≡ (build_steps usual question.now site.now (as_numbers picks.now) state.old steps.old).answer }
    ensures state { state.new ≡ (build_steps usual question.now site.now (as_numbers picks.now) state.old steps.old).state }
    ensures steps { steps.new ≡ (build_steps usual question.now site.now (as_numbers picks.now) state.old steps.old).steps }
{
    open_room::with_facts_into_both(
        site,
        state,
        steps,
        |facts: &mut [u64], state: &mut [u64], steps: &mut [u32]| {
            build_lent_in(question, site, picks, state, steps, facts)
        },
    )
}
