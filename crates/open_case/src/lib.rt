// What every call begins with: a case is read and its problem grounded, by limits that the caller chooses. What is wrong with the case is
// told; that its problem is over the limits (11 or 23) is only noted, since a third input may be refused before that.
#![tactic(auto)]

ghost use Rattle.std.specs.Prelude.{◌≡◌, true, false, ◌≤◌, length};
ghost use Rattle.rows.specs.Values.{Most};
ghost use Rattle.bits.specs.Table.{bit};
ghost use Rattle.problem_table.specs.Lines.{table_length};
ghost use Rattle.problem_layout.specs.Laid.{number_limit};
ghost use Rattle.read_tuples.specs.Labels.{NoLabels};
ghost use Rattle.read_sheets.specs.Reading.{FactsRoom};
ghost use Rattle.step_run.specs.Ended.{ended};
ghost use Rattle.definitions.specs.Limits.{usual};
ghost use Rattle.open_case.specs.Fronts.{limits as «Limits_of», Fronted, Filed};
ghost use Rattle.open_case.specs.Rooms.{says_small};
ghost use Rattle.open_case.specs.Replies.{result_of};

use problem_of_case::Sized;
use problem_sizes::Limits;
use read_line::Entry;
use read_sheets::Opened;
use refusal::{Cause, Refusal};
use step_run::End;

// The most elements, atoms and actions that a case may have, and the most steps that may be lent, or that its bound may be where it has an
// `every` line.
pub const ELEMENTS: usize = 64;

pub const ATOMS: usize = 1048576;

pub const ACTIONS: usize = 4194304;

pub const STEPS: usize = 1048576;

// Words for the facts of every case, and for the picks of a text.
pub const FACTS: usize = 32768;

pub const PICKS: usize = 16384;

// Most sites are small: FEW words hold the facts of SMALL elements, and FEW_PICKS the picks of a text over SMALL_SIZE of them, which
// is the same number. For them no more is cleared.
const SMALL: u32 = 16;

pub const SMALL_SIZE: usize = 16;

pub const FEW: usize = 512;

pub const FEW_PICKS: usize = 256;

fn says_small(x: Entry) -> bool
    ensures { result ≡ says_small x }
{
    match x {
        Entry::Size(k) => k <= SMALL,
        _ => true,
    }
}

// Whether the FEW words hold the facts of the site, by what its first line says of its size.
pub fn is_small(site: &[u8]) -> bool
    ensures { result ≡ true → FactsRoom site.now 64 512 }
{
    if site.is_empty() {
        return true;
    }
    says_small(read_line::line(site, 0).entry)
}

// What a call replies: the step count, or why and where it is refused.
pub type Reply = Result<usize, Refusal>;

// How a run ended, as a reply.
pub fn reply_of(e: End) -> Reply
    ensures { result_of result ≡ ended e }
{
    match e {
        End::Done(i) => Ok(i),
        End::NoAction(i) => Err(Cause::NoAction.at(i)),
        End::NotNow(i) => Err(Cause::NotNow.at(i)),
        End::NoGoal(i) => Err(Cause::NoGoal.at(i)),
    }
}

// What was read of a case, and how large its problem is, or that it is over the limits: `f.m?` tells that in its turn.
#[derive(Clone, Copy)]
pub struct Front {
    pub o: Opened,
    pub m: Result<Sized, Refusal>,
}

// Reads the question and the site, and grounds the case: its labels go to the lent numbers, which come in all 0, its facts to the lent
// words, which come in cleared and are enough for the size that the site says, its problem to the lent table of zeros, unless a limit
// refuses it.
pub fn open_filed(
    question: &[u8],
    site: &[u8],
    most: usize,
    limits: Limits,
    labels: &mut [usize],
    facts: &mut [u64],
    table: &mut [usize],
) -> Result<Front, Refusal>
    requires most_bound { (most ≤ 64) × (limits.atoms ≤ number_limit) × (limits.actions ≤ number_limit) }
    requires facts_room { FactsRoom site.now most (length facts.old) × NoLabels labels.old × (bit facts.old ≡ λ i. false) }
    requires table_len { (length table.old ≡ table_length) × Most table.old 0 }
    ensures { Filed («Limits_of» most limits) question.now site.now result labels.new facts.new table.new }
{
    match read_sheets::read_filed(question, site, most, labels, facts) {
        Err(e) => Err(e),
        Ok(o) => {
            let m = problem_of_case::ground_case(question, o, limits, table);
            Ok(Front { o, m })
        }
    }
}

// The limits that all calls but the desk have.
pub fn usual_limits() -> Limits
    ensures { result ≡ record { atoms = usual.atoms; actions = usual.actions; steps = usual.steps } }
{
    Limits {
        atoms: ATOMS,
        actions: ACTIONS,
        steps: STEPS,
    }
}

// Opens a case by these.
pub fn open_usual(
    question: &[u8],
    site: &[u8],
    labels: &mut [usize],
    facts: &mut [u64],
    table: &mut [usize],
) -> Result<Front, Refusal>
    requires facts_room { FactsRoom site.now 64 (length facts.old) × NoLabels labels.old × (bit facts.old ≡ λ i. false) }
    requires table_len { (length table.old ≡ table_length) × Most table.old 0 }
    ensures { Filed usual question.now site.now result labels.new facts.new table.new }
{
    let limits = usual_limits();
    open_filed(question, site, ELEMENTS, limits, labels, facts, table)
}

// The same for a call that asks for no label.
pub fn open_case(
    question: &[u8],
    site: &[u8],
    facts: &mut [u64],
    table: &mut [usize],
) -> Result<Front, Refusal>
    requires facts_room { FactsRoom site.now 64 (length facts.old) × (bit facts.old ≡ λ i. false) }
    requires table_len { (length table.old ≡ table_length) × Most table.old 0 }
    ensures { Fronted usual question.now site.now result facts.new table.new }
{
    let mut labels = [0usize; read_sheets::LABELS];
    open_usual(question, site, &mut labels, facts, table)
}
