// Why a call refuses what it is given: the causes of the refusal sheet by name, each with its number, and the place where it was found.
#![tactic(auto)]

ghost use Rattle.std.specs.Prelude.{◌≡◌};
ghost use Rattle.refusal.specs.Numbers.{number_of};

// What is wrong: with a text, a record or the rule; with the size of the problem; with lent buffers, steps or picks; and what a call does
// not take at all.
#[derive(Clone, Copy)]
pub enum Cause {
    TooLong = 1,
    NoRecord = 2,
    OutOfOrder = 3,
    BadName = 4,
    NoFormula = 5,
    TooManyForms = 6,
    Unknown = 7,
    BadVariable = 8,
    OutOfRange = 9,
    Repeated = 10,
    TooLarge = 11,
    ShortBuffer = 12,
    NoAction = 13,
    NotNow = 14,
    NoGoal = 15,
    OtherKind = 16,
    RuleFalse = 17,
    BadLabel = 18,
    BadType = 19,
    TooManyCells = 20,
    NoPicks = 21,
    BeyondPddl = 22,
    HasEvery = 23,
    NotMonotone = 24,
}

impl Cause {
    // Its number on the refusal sheet, as C is told.
    pub fn number(self) -> u32
        ensures { result ≡ number_of self }
    {
        self as u32
    }

    // The refusal for it at a place.
    pub fn at(self, place: usize) -> Refusal
        ensures { result ≡ record { cause = self; place = place } }
    {
        Refusal { cause: self, place }
    }
}

// A cause, and where it was found.
#[derive(Clone, Copy)]
pub struct Refusal {
    pub cause: Cause,
    pub place: usize,
}
