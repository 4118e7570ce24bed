// The public calls for programs in C, Rust and other languages. A slice goes over as a pointer and a length; lent memory must not
// overlap. A call's number and place come back through two references: 0 and the step count, or a refusal's number and place.
// What a refusal leaves as it was is left: sizes and an action's details are written only where there are some.
#![tactic(auto)]

ghost use Rattle.std.specs.Prelude.{◌≡◌, length};
ghost use Rattle.definitions.specs.Reply.Desk.{desk};
ghost use Rattle.definitions.specs.Limits.{usual};
ghost use Rattle.definitions.specs.Problem.Actions.{action_kind, action_subject, action_row, action_choice};
ghost use Rattle.definitions.specs.Reply.Outcome.{as_text, as_numbers, sizes as «sizes_of», action as «action_of_lem», rule_part, check_steps, picks_from_steps, build_steps, written, reply_number, reply_place, refusal_place, told};
ghost use Rattle.open_case.specs.Replies.{result_of};
ghost use Rattle.refusal.specs.Numbers.{number_of};
ghost use Rattle.nendokwe.specs.Told.{details_of};
ghost use Rattle.definitions.specs.Reply.Allowance.{allowances as «allowances_of»};
ghost use Rattle.definitions.specs.Reply.Judgement.{judge};
ghost use Rattle.definitions.specs.Reply.Finding.{find as «find_of»};
ghost use Rattle.definitions.specs.Reply.Monotone.{monotone as «monotone_of»};
ghost use Rattle.definitions.specs.Reply.Page.{lay_page};
ghost use Rattle.definitions.specs.Reply.Layers.{window_of, check_layers, build_layers};
ghost use Rattle.definitions.specs.Reply.Pddl.{write_domain, write_instance, write_plan, read_plan};
ghost use Rattle.definitions.specs.Reply.Tries.{try_lists};
ghost use Rattle.call_tries.specs.Recorded.{records};

use call_tries::Try;
use open_case::Reply;
use problem_table::{Act, ChoiceAct, TupleAct};
use refusal::Refusal;

// A refusal as number and place.
fn tell_refusal(e: Refusal, number: &mut u32, place: &mut usize)
    ensures number_after { number.new ≡ number_of e.cause }
    ensures place_after { place.new ≡ e.place }
{
    *number = e.cause.number();
    *place = e.place;
}

// A reply as number and place.
fn tell(r: Reply, number: &mut u32, place: &mut usize)
    ensures number_after { number.new ≡ reply_number (result_of r) }
    ensures place_after { place.new ≡ reply_place (result_of r) }
{
    match r {
        Ok(count) => {
            *number = 0;
            *place = count;
        }
        Err(e) => tell_refusal(e, number, place),
    }
}

// Where the rule's formula lies in the question, and how long it is: 0 and 0 where the question is refused.
#[unsafe(no_mangle)]
pub extern "C" fn nendokwe_rule(question: &[u8], start: &mut usize, length: &mut usize)
    ensures start_after { start.new ≡ (rule_part question.now).start }
    ensures length_after { length.new ≡ (rule_part question.now).len }
{
    match read_question::question(question) {
        Ok(q) => {
            *start = q.rule.from;
            *length = q.rule.to - q.rule.from;
        }
        Err(_) => {
            *start = 0;
            *length = 0;
        }
    }
}

// The sizes of a case.
#[unsafe(no_mangle)]
pub extern "C" fn nendokwe_sizes(
    question: &[u8],
    site: &[u8],
    number: &mut u32,
    place: &mut usize,
    elements: &mut usize,
    atoms: &mut usize,
    actions: &mut usize,
    bound: &mut usize,
)
    ensures number_after { number.new ≡ reply_number («sizes_of» usual question.now site.now) }
    ensures place_after { place.new ≡ refusal_place («sizes_of» usual question.now site.now) }
    ensures elements_after { elements.new ≡ told (λ s. s.elements) («sizes_of» usual question.now site.now) elements.old }
    ensures atoms_after { atoms.new ≡ told (λ s. s.atom_count) («sizes_of» usual question.now site.now) atoms.old }
    ensures actions_after { actions.new ≡ told (λ s. s.action_count) («sizes_of» usual question.now site.now) actions.old }
    ensures bound_after { bound.new ≡ told (λ s. s.step_bound) («sizes_of» usual question.now site.now) bound.old }
{
    let r = call_sizes::sizes(question, site);
    match r {
        Ok(s) => {
            *number = 0;
            *place = 0;
            *elements = s.elements;
            *atoms = s.atoms;
            *actions = s.actions;
            *bound = s.bound;
        }
        Err(e) => tell_refusal(e, number, place),
    }
}

// An action in numbers.
#[derive(Clone, Copy)]
pub struct Details {
    pub kind: u32,
    pub subject: usize,
    pub row: usize,
    pub choice: usize,
}

// The details of an action that has none but its kind.
fn bare(kind: u32) -> Details
    ensures { result ≡ record { kind = kind; subject = 0; row = 0; choice = 0 } }
{
    Details {
        kind,
        subject: 0,
        row: 0,
        choice: 0,
    }
}

// The details of an action on a tuple.
fn on_tuple(kind: u32, a: TupleAct) -> Details
    ensures { result ≡ record { kind = kind; subject = a.relation; row = a.row; choice = 0 } }
{
    Details {
        kind,
        subject: a.relation,
        row: a.row,
        choice: 0,
    }
}

// The details of an action on a node, with the part, element or z that is chosen.
fn chosen(kind: u32, a: ChoiceAct) -> Details
    ensures { result ≡ record { kind = kind; subject = a.node; row = a.row; choice = a.choice } }
{
    Details {
        kind,
        subject: a.node,
        row: a.row,
        choice: a.choice,
    }
}

// An action in numbers, by its kind.
fn in_numbers(a: Act) -> Details
    ensures { result ≡ details_of a }
{
    match a {
        Act::Set(x) => on_tuple(0, x),
        Act::And(x) => Details {
            kind: 2,
            subject: x.node,
            row: x.row,
            choice: 0,
        },
        Act::Or(x) => chosen(3, x),
        Act::Exists(x) => chosen(4, x),
        Act::Forall(x) => chosen(5, x),
        Act::MarkIn(x) => on_tuple(8, x),
        Act::MarkOut(x) => on_tuple(9, x),
        Act::Begin => bare(1),
        Act::Goal => bare(6),
        Act::RoundEnd => bare(7),
        Act::Nothing => bare(10),
    }
}

// The action of number k: its kind (0 set, 1 begin-proof, 2 `and`, 3 `or`, 4 `exists`, 5 `forall`, 6 prove-goal, 7 round-end,
// 8 mark-in, 9 mark-out), its relation or node, its row, and its part, element or z; a detail that its kind does not have is 0.
#[unsafe(no_mangle)]
pub extern "C" fn nendokwe_action(
    question: &[u8],
    site: &[u8],
    k: usize,
    number: &mut u32,
    place: &mut usize,
    kind: &mut u32,
    subject: &mut usize,
    row: &mut usize,
    choice: &mut usize,
)
    ensures number_after { number.new ≡ reply_number («action_of_lem» usual question.now site.now k) }
    ensures place_after { place.new ≡ refusal_place («action_of_lem» usual question.now site.now k) }
    ensures kind_after { kind.new ≡ told action_kind («action_of_lem» usual question.now site.now k) kind.old }
    ensures subject_after { subject.new ≡ told action_subject («action_of_lem» usual question.now site.now k) subject.old }
    ensures row_after { row.new ≡ told action_row («action_of_lem» usual question.now site.now k) row.old }
    ensures choice_after { choice.new ≡ told action_choice («action_of_lem» usual question.now site.now k) choice.old }
{
    let r = call_action::action(question, site, k);
    match r {
        Ok(a) => {
            let d = in_numbers(a);
            *number = 0;
            *place = 0;
            *kind = d.kind;
            *subject = d.subject;
            *row = d.row;
            *choice = d.choice;
        }
        Err(e) => tell_refusal(e, number, place),
    }
}

// Checks steps that are handed over as a text.
#[unsafe(no_mangle)]
pub extern "C" fn nendokwe_check_text(
    question: &[u8],
    site: &[u8],
    steps: &[u8],
    state: &mut [u64],
    number: &mut u32,
    place: &mut usize,
)
    ensures number_after { number.new ≡ reply_number (check_steps usual question.now site.now (as_text steps.now) state.old).answer }
    ensures place_after { place.new ≡ reply_place (check_steps usual question.now site.now (as_text steps.now) state.old).answer }
    ensures state_after { state.new ≡ (check_steps usual question.now site.now (as_text steps.now) state.old).state }
{
    let r = call_check::check_text(question, site, steps, state);
    tell(r, number, place);
}

// Checks steps that are lent as numbers.
#[unsafe(no_mangle)]
pub extern "C" fn nendokwe_check(
    question: &[u8],
    site: &[u8],
    steps: &[u32],
    state: &mut [u64],
    number: &mut u32,
    place: &mut usize,
)
    ensures number_after { number.new ≡ reply_number (check_steps usual question.now site.now (as_numbers steps.now) state.old).answer }
    ensures place_after { place.new ≡ reply_place (check_steps usual question.now site.now (as_numbers steps.now) state.old).answer }
    ensures state_after { state.new ≡ (check_steps usual question.now site.now (as_numbers steps.now) state.old).state }
{
    let r = call_check::check_lent(question, site, steps, state);
    tell(r, number, place);
}

// Reads the picks of steps that are handed over as a text.
#[unsafe(no_mangle)]
pub extern "C" fn nendokwe_picks_text(
    question: &[u8],
    site: &[u8],
    steps: &[u8],
    picks: &mut [u64],
    state: &mut [u64],
    number: &mut u32,
    place: &mut usize,
)
    ensures number_after { number.new ≡ reply_number (picks_from_steps usual question.now site.now (as_text steps.now) picks.old state.old).answer }
    ensures place_after { place.new ≡ reply_place (picks_from_steps usual question.now site.now (as_text steps.now) picks.old state.old).answer }
    ensures picks_after { picks.new ≡ (picks_from_steps usual question.now site.now (as_text steps.now) picks.old state.old).picks }
    ensures state_after { state.new ≡ (picks_from_steps usual question.now site.now (as_text steps.now) picks.old state.old).state }
{
    let r = call_read::picks_text(question, site, steps, picks, state);
    tell(r, number, place);
}

// Reads the picks of steps that are lent as numbers.
#[unsafe(no_mangle)]
pub extern "C" fn nendokwe_picks(
    question: &[u8],
    site: &[u8],
    steps: &[u32],
    picks: &mut [u64],
    state: &mut [u64],
    number: &mut u32,
    place: &mut usize,
)
    ensures number_after { number.new ≡ reply_number (picks_from_steps usual question.now site.now (as_numbers steps.now) picks.old state.old).answer }
    ensures place_after { place.new ≡ reply_place (picks_from_steps usual question.now site.now (as_numbers steps.now) picks.old state.old).answer }
    ensures picks_after { picks.new ≡ (picks_from_steps usual question.now site.now (as_numbers steps.now) picks.old state.old).picks }
    ensures state_after { state.new ≡ (picks_from_steps usual question.now site.now (as_numbers steps.now) picks.old state.old).state }
{
    let r = call_read::picks_lent(question, site, steps, picks, state);
    tell(r, number, place);
}

// Builds steps from picks that are handed over as a text.
#[unsafe(no_mangle)]
pub extern "C" fn nendokwe_build_text(
    question: &[u8],
    site: &[u8],
    picks: &[u8],
    state: &mut [u64],
    steps: &mut [u32],
    number: &mut u32,
    place: &mut usize,
)
    ensures number_after { number.new ≡ reply_number (build_steps usual question.now site.now (as_text picks.now) state.old steps.old).answer }
    ensures place_after { place.new ≡ reply_place (build_steps usual question.now site.now (as_text picks.now) state.old steps.old).answer }
    ensures state_after { state.new ≡ (build_steps usual question.now site.now (as_text picks.now) state.old steps.old).state }
    ensures steps_after { steps.new ≡ (build_steps usual question.now site.now (as_text picks.now) state.old steps.old).steps }
{
    let r = call_build::build_text(question, site, picks, state, steps);
    tell(r, number, place);
}

// Builds steps from picks that are lent as words.
#[unsafe(no_mangle)]
pub extern "C" fn nendokwe_build(
    question: &[u8],
    site: &[u8],
    picks: &[u64],
    state: &mut [u64],
    steps: &mut [u32],
    number: &mut u32,
    place: &mut usize,
)
    ensures number_after { number.new ≡ reply_number (build_steps usual question.now site.now (as_numbers picks.now) state.old steps.old).answer }
    ensures place_after { place.new ≡ reply_place (build_steps usual question.now site.now (as_numbers picks.now) state.old steps.old).answer }
    ensures state_after { state.new ≡ (build_steps usual question.now site.now (as_numbers picks.now) state.old steps.old).state }
    ensures steps_after { steps.new ≡ (build_steps usual question.now site.now (as_numbers picks.now) state.old steps.old).steps }
{
    let r = call_build::build_lent(question, site, picks, state, steps);
    tell(r, number, place);
}

// Whether the rule is true of picks that are handed over as a text: 0 and 0, or a refusal.
#[unsafe(no_mangle)]
pub extern "C" fn nendokwe_judge_text(
    question: &[u8],
    site: &[u8],
    picks: &[u8],
    number: &mut u32,
    place: &mut usize,
)
    ensures number_after { number.new ≡ reply_number (judge usual question.now site.now (as_text picks.now)) }
    ensures place_after { place.new ≡ reply_place (judge usual question.now site.now (as_text picks.now)) }
{
    let r = call_judge::judge_text(question, site, picks);
    tell(r, number, place);
}

// The same for picks that are lent as words.
#[unsafe(no_mangle)]
pub extern "C" fn nendokwe_judge(
    question: &[u8],
    site: &[u8],
    picks: &[u64],
    number: &mut u32,
    place: &mut usize,
)
    ensures number_after { number.new ≡ reply_number (judge usual question.now site.now (as_numbers picks.now)) }
    ensures place_after { place.new ≡ reply_place (judge usual question.now site.now (as_numbers picks.now)) }
{
    let r = call_judge::judge_lent(question, site, picks);
    tell(r, number, place);
}

// How far one pick more or less of each chosen relation can move the number of built steps: one number for each `choose`.
#[unsafe(no_mangle)]
pub extern "C" fn nendokwe_allowances(
    question: &[u8],
    site: &[u8],
    allowances: &mut [u64],
    number: &mut u32,
    place: &mut usize,
)
    ensures number_after { number.new ≡ reply_number («allowances_of» usual question.now site.now allowances.old).answer }
    ensures place_after { place.new ≡ reply_place («allowances_of» usual question.now site.now allowances.old).answer }
    ensures allowances_after { allowances.new ≡ («allowances_of» usual question.now site.now allowances.old).allowances }
{
    let r = call_allowance::allowances(question, site, allowances);
    tell(r, number, place);
}

// Tries many step lists of one case, each a record's: the steps from its first index on, as many as its length. A case that is refused
// leaves the records and the state; else number and place are 0, each record has its list's number and place, and the initial state is
// left.
#[unsafe(no_mangle)]
pub extern "C" fn nendokwe_tries(
    question: &[u8],
    site: &[u8],
    steps: &[u32],
    tries: &mut [Try],
    state: &mut [u64],
    number: &mut u32,
    place: &mut usize,
)
    ensures number_after { number.new ≡ reply_number (try_lists usual question.now site.now steps.now (records tries.old) state.old).answer }
    ensures place_after { place.new ≡ reply_place (try_lists usual question.now site.now steps.now (records tries.old) state.old).answer }
    ensures tries_after { records tries.new ≡ (try_lists usual question.now site.now steps.now (records tries.old) state.old).tries }
    ensures state_after { state.new ≡ (try_lists usual question.now site.now steps.now (records tries.old) state.old).state }
{
    let r = call_tries::try_lists(question, site, steps, tries, state);
    *number = r.number;
    *place = r.place;
}

// What the desk program prints for an input, and how many bytes that is. The 573,952 that are lent are always enough.
#[unsafe(no_mangle)]
pub extern "C" fn nendokwe_desk(input: &[u8], out: &mut [u8; call_desk::ROOM]) -> usize
    ensures value { result ≡ length (desk input.now) }
    ensures out_after { out.new ≡ written (desk input.now) out.old }
{
    call_desk::reply(input, out)
}

// Lays out a page of steps that are handed over as a text: 0 and the bytes of the page, or a refusal.
#[unsafe(no_mangle)]
pub extern "C" fn nendokwe_page_text(
    question: &[u8],
    site: &[u8],
    steps: &[u8],
    page: usize,
    state: &mut [u64],
    out: &mut [u8],
    number: &mut u32,
    place: &mut usize,
)
    ensures number_after { number.new ≡ reply_number (lay_page usual question.now site.now (as_text steps.now) page state.old out.old).answer }
    ensures place_after { place.new ≡ reply_place (lay_page usual question.now site.now (as_text steps.now) page state.old out.old).answer }
    ensures state_after { state.new ≡ (lay_page usual question.now site.now (as_text steps.now) page state.old out.old).state }
    ensures out_after { out.new ≡ (lay_page usual question.now site.now (as_text steps.now) page state.old out.old).page }
{
    let r = call_page::page_text(question, site, steps, page, state, out);
    tell(r, number, place);
}

// The same for steps that are lent as numbers.
#[unsafe(no_mangle)]
pub extern "C" fn nendokwe_page(
    question: &[u8],
    site: &[u8],
    steps: &[u32],
    page: usize,
    state: &mut [u64],
    out: &mut [u8],
    number: &mut u32,
    place: &mut usize,
)
    ensures number_after { number.new ≡ reply_number (lay_page usual question.now site.now (as_numbers steps.now) page state.old out.old).answer }
    ensures place_after { place.new ≡ reply_place (lay_page usual question.now site.now (as_numbers steps.now) page state.old out.old).answer }
    ensures state_after { state.new ≡ (lay_page usual question.now site.now (as_numbers steps.now) page state.old out.old).state }
    ensures out_after { out.new ≡ (lay_page usual question.now site.now (as_numbers steps.now) page state.old out.old).page }
{
    let r = call_page::page_lent(question, site, steps, page, state, out);
    tell(r, number, place);
}

// The least picks of the declared kinds that make the rule true, cells read as a binary number, the first the most significant: 0 and 0,
// or a refusal, which leaves the buffer.
#[unsafe(no_mangle)]
pub extern "C" fn nendokwe_find(
    question: &[u8],
    site: &[u8],
    picks: &mut [u64],
    number: &mut u32,
    place: &mut usize,
)
    ensures number_after { number.new ≡ reply_number («find_of» usual question.now site.now picks.old).answer }
    ensures place_after { place.new ≡ reply_place («find_of» usual question.now site.now picks.old).answer }
    ensures picks_after { picks.new ≡ («find_of» usual question.now site.now picks.old).picks }
{
    let r = call_find::find(question, site, picks);
    tell(r, number, place);
}

// Whether some picks make a rule true that only ever wants more: 0 and 0, or a refusal.
#[unsafe(no_mangle)]
pub extern "C" fn nendokwe_monotone(
    question: &[u8],
    site: &[u8],
    number: &mut u32,
    place: &mut usize,
)
    ensures number_after { number.new ≡ reply_number («monotone_of» usual question.now site.now) }
    ensures place_after { place.new ≡ reply_place («monotone_of» usual question.now site.now) }
{
    let r = call_monotone::monotone(question, site);
    tell(r, number, place);
}

// The window of a case: how many layers its plans have at the least, and built ones at the most. A refusal leaves the two.
#[unsafe(no_mangle)]
pub extern "C" fn nendokwe_window(
    question: &[u8],
    site: &[u8],
    number: &mut u32,
    place: &mut usize,
    lower: &mut usize,
    upper: &mut usize,
)
    ensures number_after { number.new ≡ reply_number (window_of usual question.now site.now) }
    ensures place_after { place.new ≡ refusal_place (window_of usual question.now site.now) }
    ensures lower_after { lower.new ≡ told (λ w. w.lower) (window_of usual question.now site.now) lower.old }
    ensures upper_after { upper.new ≡ told (λ w. w.upper) (window_of usual question.now site.now) upper.old }
{
    let r = call_window::window(question, site);
    match r {
        Ok(w) => {
            *number = 0;
            *place = 0;
            *lower = w.lower;
            *upper = w.upper;
        }
        Err(e) => tell_refusal(e, number, place),
    }
}

// Checks a plan in layers: all steps, and for each layer the index after its last. Success is 0 and the number of layers.
#[unsafe(no_mangle)]
pub extern "C" fn nendokwe_check_layers(
    question: &[u8],
    site: &[u8],
    steps: &[u32],
    ends: &[u32],
    state: &mut [u64],
    number: &mut u32,
    place: &mut usize,
)
    ensures number_after { number.new ≡ reply_number (check_layers usual question.now site.now steps.now ends.now state.old).answer }
    ensures place_after { place.new ≡ reply_place (check_layers usual question.now site.now steps.now ends.now state.old).answer }
    ensures state_after { state.new ≡ (check_layers usual question.now site.now steps.now ends.now state.old).state }
{
    let r = call_check_layers::check_layers(question, site, steps, ends, state);
    tell(r, number, place);
}

// Builds a plan in layers from picks that are handed over as a text.
#[unsafe(no_mangle)]
pub extern "C" fn nendokwe_build_layers_text(
    question: &[u8],
    site: &[u8],
    picks: &[u8],
    state: &mut [u64],
    steps: &mut [u32],
    ends: &mut [u32],
    number: &mut u32,
    place: &mut usize,
)
    ensures number_after { number.new ≡ reply_number (build_layers usual question.now site.now (as_text picks.now) state.old steps.old ends.old).answer }
    ensures place_after { place.new ≡ reply_place (build_layers usual question.now site.now (as_text picks.now) state.old steps.old ends.old).answer }
    ensures state_after { state.new ≡ (build_layers usual question.now site.now (as_text picks.now) state.old steps.old ends.old).state }
    ensures steps_after { steps.new ≡ (build_layers usual question.now site.now (as_text picks.now) state.old steps.old ends.old).steps }
    ensures ends_after { ends.new ≡ (build_layers usual question.now site.now (as_text picks.now) state.old steps.old ends.old).ends }
{
    let r = call_build_layers::build_layers_text(question, site, picks, state, steps, ends);
    tell(r, number, place);
}

// The same from picks that are lent as words.
#[unsafe(no_mangle)]
pub extern "C" fn nendokwe_build_layers(
    question: &[u8],
    site: &[u8],
    picks: &[u64],
    state: &mut [u64],
    steps: &mut [u32],
    ends: &mut [u32],
    number: &mut u32,
    place: &mut usize,
)
    ensures number_after { number.new ≡ reply_number (build_layers usual question.now site.now (as_numbers picks.now) state.old steps.old ends.old).answer }
    ensures place_after { place.new ≡ reply_place (build_layers usual question.now site.now (as_numbers picks.now) state.old steps.old ends.old).answer }
    ensures state_after { state.new ≡ (build_layers usual question.now site.now (as_numbers picks.now) state.old steps.old ends.old).state }
    ensures steps_after { steps.new ≡ (build_layers usual question.now site.now (as_numbers picks.now) state.old steps.old ends.old).steps }
    ensures ends_after { ends.new ≡ (build_layers usual question.now site.now (as_numbers picks.now) state.old steps.old ends.old).ends }
{
    let r = call_build_layers::build_layers_lent(question, site, picks, state, steps, ends);
    tell(r, number, place);
}

// The domain of a case as PDDL: 0 and the bytes written, or a refusal, which leaves the buffer.
#[unsafe(no_mangle)]
pub extern "C" fn nendokwe_pddl_domain(
    question: &[u8],
    site: &[u8],
    out: &mut [u8],
    number: &mut u32,
    place: &mut usize,
)
    ensures number_after { number.new ≡ reply_number (write_domain usual question.now site.now out.old).answer }
    ensures place_after { place.new ≡ reply_place (write_domain usual question.now site.now out.old).answer }
    ensures out_after { out.new ≡ (write_domain usual question.now site.now out.old).text }
{
    let r = call_domain::domain(question, site, out);
    tell(r, number, place);
}

// The instance of a case as PDDL.
#[unsafe(no_mangle)]
pub extern "C" fn nendokwe_pddl_instance(
    question: &[u8],
    site: &[u8],
    out: &mut [u8],
    number: &mut u32,
    place: &mut usize,
)
    ensures number_after { number.new ≡ reply_number (write_instance usual question.now site.now out.old).answer }
    ensures place_after { place.new ≡ reply_place (write_instance usual question.now site.now out.old).answer }
    ensures out_after { out.new ≡ (write_instance usual question.now site.now out.old).text }
{
    let r = call_instance::instance(question, site, out);
    tell(r, number, place);
}

// A plan of PDDL from steps that are handed over as a text.
#[unsafe(no_mangle)]
pub extern "C" fn nendokwe_pddl_plan_text(
    question: &[u8],
    site: &[u8],
    steps: &[u8],
    out: &mut [u8],
    number: &mut u32,
    place: &mut usize,
)
    ensures number_after { number.new ≡ reply_number (write_plan usual question.now site.now (as_text steps.now) out.old).answer }
    ensures place_after { place.new ≡ reply_place (write_plan usual question.now site.now (as_text steps.now) out.old).answer }
    ensures out_after { out.new ≡ (write_plan usual question.now site.now (as_text steps.now) out.old).text }
{
    let r = call_plan::plan_text(question, site, steps, out);
    tell(r, number, place);
}

// The same from steps that are lent as numbers.
#[unsafe(no_mangle)]
pub extern "C" fn nendokwe_pddl_plan(
    question: &[u8],
    site: &[u8],
    steps: &[u32],
    out: &mut [u8],
    number: &mut u32,
    place: &mut usize,
)
    ensures number_after { number.new ≡ reply_number (write_plan usual question.now site.now (as_numbers steps.now) out.old).answer }
    ensures place_after { place.new ≡ reply_place (write_plan usual question.now site.now (as_numbers steps.now) out.old).answer }
    ensures out_after { out.new ≡ (write_plan usual question.now site.now (as_numbers steps.now) out.old).text }
{
    let r = call_plan::plan_lent(question, site, steps, out);
    tell(r, number, place);
}

// The steps of a plan of PDDL: 0 and how many they are, or a refusal, which leaves the buffer.
#[unsafe(no_mangle)]
pub extern "C" fn nendokwe_pddl_read(
    question: &[u8],
    site: &[u8],
    plan: &[u8],
    steps: &mut [u32],
    number: &mut u32,
    place: &mut usize,
)
    ensures number_after { number.new ≡ reply_number (read_plan usual question.now site.now plan.now steps.old).answer }
    ensures place_after { place.new ≡ reply_place (read_plan usual question.now site.now plan.now steps.old).answer }
    ensures steps_after { steps.new ≡ (read_plan usual question.now site.now plan.now steps.old).steps }
{
    let r = call_plan_read::read_plan(question, site, plan, steps);
    tell(r, number, place);
}
