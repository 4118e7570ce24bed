// Many step lists for one case: each record of a lent table gets the number and the place that a check of its list alone would return.
#![tactic(auto)]

ghost use Rattle.std.specs.Prelude.{◌≡◌, map};
ghost use Rattle.definitions.specs.Limits.{usual};
ghost use Rattle.definitions.specs.Problem.Atoms.{Problem};
ghost use Rattle.definitions.specs.Reply.Tries.{try_lists};
ghost use Rattle.open_tries.specs.Begun.{ReadyToTry, Serves};
ghost use Rattle.open_case.specs.Replies.{result_of};
ghost use Rattle.call_tries.specs.Recorded.{records, answer_of, answered};
ghost use Rattle.call_tries.specs.Each.{answer};

use open_case::Reply;

// A record, laid out as C lays it out: where its list begins among the lent steps, how many steps it has, and the reply to it.
#[repr(C)]
#[derive(Clone, Copy)]
pub struct Try {
    pub first: u32,
    pub length: u32,
    pub number: u32,
    pub place: u64,
}

// The reply to the call itself: a refusal's number and place, or 0 and 0.
#[derive(Clone, Copy)]
pub struct CallReply {
    pub number: u32,
    pub place: usize,
}

// The reply to its list goes into the record. (It goes to its two fields: to write the record as a whole would write the bytes between them.)
#[tactic(auto, unfolding(crate::specs::Recorded::answered, definitions::specs::Reply::Outcome::reply_number, definitions::specs::Reply::Outcome::reply_place))]
fn answer(t: &mut Try, r: Reply)
    ensures { t.new ≡ answered t.old (result_of r) }
{
    match r {
        Ok(count) => {
            t.number = 0;
            t.place = count as u64;
        }
        Err(e) => {
            t.number = e.cause.number();
            t.place = e.place as u64;
        }
    }
}

// The walk over the lent records: each is answered.
fn try_each(table: &[usize], state: &[u64], words: usize, steps: &[u32], tries: &mut [Try])
    requires { ReadyToTry table.now state.now words }
    ensures { (p : Problem) → Serves p table.now state.now words → tries.new ≡ map (answer p steps.now) tries.old }
{
    for t in tries.iter_mut() {
        let reply = open_tries::try_list(table, state, words, steps, t.first, t.length);
        answer(t, reply);
    }
}

// Tries many step lists of one case. A case that is refused leaves the records and the state; else each record has the reply to its
// list, and the initial state is left.
pub fn try_lists(
    question: &[u8],
    site: &[u8],
    steps: &[u32],
    tries: &mut [Try],
    state: &mut [u64],
) -> CallReply
    ensures value { result ≡ answer_of (try_lists usual question.now site.now steps.now (records tries.old) state.old).answer }
    ensures tries_after { records tries.new ≡ (try_lists usual question.now site.now steps.now (records tries.old) state.old).tries }
    ensures state_after { state.new ≡ (try_lists usual question.now site.now steps.now (records tries.old) state.old).state }
{
    let mut table = [0usize; problem_table::TABLE];
    match open_tries::begin(question, site, &mut table, state) {
        Ok(words) => {
            try_each(&table, state, words, steps, tries);
            CallReply {
                number: 0,
                place: 0,
            }
        }
        Err(e) => CallReply {
            number: e.cause.number(),
            place: e.place,
        },
    }
}
