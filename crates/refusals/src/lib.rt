// Why a call is refused: one case for each condition of "Numbers a call gives back", with its number.
#![tactic(auto)]

ghost use Rattle.std.specs.Prelude.{◌≡◌};
ghost use Rattle.refusals.specs.Numbers.{number_of, alone};

// The conditions, in the order of the checks.
#[derive(Clone, Copy, Debug, PartialEq, Eq)]
pub enum Reason {
    // 1: "n not 2 or 3"
    WrongDimension,
    // 2: "table length no multiple of 4, or above 262,144"
    WrongTableLength,
    // 3: "marks length differs from slots"
    WrongMarksLength,
    // 37: "queue length differs from slots"
    WrongQueueLength,
    // 4: "journal length or its two words out of rule"
    WrongJournal,
    // 38: "list length no multiple of three"
    WrongListLength,
    // 5: "half-used slot or link to no live slot stays 5"
    LinkNotLive,
    // 24: "a link that isn't returned"
    LinkNotReturned,
    // 25: "a distant pair that doesn't commute"
    PairNotReturning,
    // 26: "in 2D, a link 3 that leaves its dart"
    Link3NotFree,
    // 18: "table not empty"
    NotEmpty,
    // 19: "text not of the form"
    WrongForm,
    // 20: "other cell type"
    OtherType,
    // 21: "vertex repeated in a cell"
    VertexRepeated,
    // 22: "three cells with the same four vertices in a face"
    FaceShared,
    // 23: "same four vertices in another order"
    OtherOrder,
    // 6: "i above n, or mask above 2^(n+1) - 1"
    OutOfRange,
    // 7: "d or e not a live slot"
    NotLive,
    // 8: "not a block map"
    NoBlockMap,
    // 28: "mark not 0 or 1 or a marked dead slot"
    NotDrawn,
    // 29: "empty or not closed"
    NotEnclosed,
    // 30: "free side in the wall"
    NotSewn,
    // 31: "what is needed of next fails"
    WrongTurns,
    // 32: "not connected"
    NotConnected,
    // 9: "e in d's side"
    SameSide,
    // 10: "d or e not i-free"
    NotFree,
    // 11: "d is i-free"
    Free,
    // 12: "no pairing exists"
    NoPairing,
    // 13: "some g in S has g.1 in S"
    CrossesItself,
    // 14: "too few unused slots"
    TooFewSlots,
    // 15: "record longer than the words from cursor to length"
    NoRoom,
    // 16: "cursor 2 (undo); cursor = end (redo)"
    NoRecord,
    // 17: "record broken, or result no map"
    BrokenRecord,
}

// A refusal, with the place and the count that are told with it: 0 unless "Numbers a call gives back" says more.
#[derive(Clone, Copy, Debug, PartialEq, Eq)]
pub struct Refused {
    pub reason: Reason,
    pub place: u32,
    pub count: u32,
}

impl Reason {
    pub fn number(self) -> u32
        ensures { result ≡ number_of self }
    {
        match self {
            Reason::WrongDimension => 1,
            Reason::WrongTableLength => 2,
            Reason::WrongMarksLength => 3,
            Reason::WrongQueueLength => 37,
            Reason::WrongJournal => 4,
            Reason::WrongListLength => 38,
            Reason::LinkNotLive => 5,
            Reason::LinkNotReturned => 24,
            Reason::PairNotReturning => 25,
            Reason::Link3NotFree => 26,
            Reason::NotEmpty => 18,
            Reason::WrongForm => 19,
            Reason::OtherType => 20,
            Reason::VertexRepeated => 21,
            Reason::FaceShared => 22,
            Reason::OtherOrder => 23,
            Reason::OutOfRange => 6,
            Reason::NotLive => 7,
            Reason::NoBlockMap => 8,
            Reason::NotDrawn => 28,
            Reason::NotEnclosed => 29,
            Reason::NotSewn => 30,
            Reason::WrongTurns => 31,
            Reason::NotConnected => 32,
            Reason::SameSide => 9,
            Reason::NotFree => 10,
            Reason::Free => 11,
            Reason::NoPairing => 12,
            Reason::CrossesItself => 13,
            Reason::TooFewSlots => 14,
            Reason::NoRoom => 15,
            Reason::NoRecord => 16,
            Reason::BrokenRecord => 17,
        }
    }
}

// A reason alone: place and count are 0.
impl From<Reason> for Refused {
    ghost from_gives = { λ reason refused. refused ≡ alone reason };

    fn from(reason: Reason) -> Refused {
        Refused {
            reason,
            place: 0,
            count: 0,
        }
    }
}
