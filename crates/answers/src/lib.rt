// What a call answers where it refuses: one of the documents' reasons, which is a number there, and a place.
#![tactic(auto)]

ghost use Rattle.std.specs.Prelude.{◌≡◌};
ghost use Rattle.answers.specs.Refusals.{number};

/// Why a call refuses, with the number that documents 01 and 02 give.
#[derive(Clone, Copy, Debug, PartialEq, Eq)]
pub enum Reason {
    BadModelKind = 1,
    BadModelField = 2,
    OverModelLimit = 3,
    BadWeights = 4,
    NoLocation = 5,
    NoStart = 6,
    BadTableKind = 11,
    BadTableField = 12,
    OverTableLimit = 13,
    NoNode = 14,
    BadTargetValue = 15,
    NotBlocked = 16,
    WrongLocation = 17,
    NotInside = 18,
    SumTooLarge = 19,
    WrongStart = 20,
    StartNotInside = 21,
    BadClocks = 31,
    BadBound = 32,
    BadSecondBound = 33,
    NotWords = 41,
    TooLong = 42,
    PartNotAbove = 51,
    PartMismatch = 52,
    PartNotInside = 53,
    BoardOutOfRange = 54,
    AllowanceSpent = 55,
    SlotHeldByOther = 56,
    TooManyNodes = 58,
    BoundTooFar = 59,
    TooFewWords = 60,
}

impl Reason {
    /// The documents' number.
    #[tactic(auto, unfolding(crate::specs::Refusals::number))]
    pub fn number(self) -> u32
        ensures { result ≡ number self }
    {
        self as u32
    }

    /// The refusal for this reason at a place.
    pub fn at(self, place: usize) -> Refusal
        ensures reason { result.reason ≡ self }
        ensures place { result.place ≡ place }
    {
        Refusal {
            reason: self,
            place,
        }
    }
}

/// A refusal: why, and where. The place is the index of a word, or the length where a word is lacking; it is 0 for a reason that has none.
#[derive(Clone, Copy, Debug, PartialEq, Eq)]
pub struct Refusal {
    pub reason: Reason,
    pub place: usize,
}
