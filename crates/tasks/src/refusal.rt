// A refusal: documents 01 and 02's number of it and an index, and the numbers by what is wrong.
ghost use Rattle.std.specs.Prelude.{◌≡◌};
ghost use Rattle.tasks.specs.Answer.{rule_number, refusal_by};

// "A refused call returns its number and an index"
#[derive(Clone, Copy, Debug, PartialEq, Eq)]
pub struct Refusal {
    pub number: u8,
    pub index: u16,
}

// What is wrong, in the order of the numbers.
#[derive(Clone, Copy, Debug, PartialEq, Eq)]
pub enum Rule {
    EditionUnknown = 1,
    LengthWrong = 2,
    CoresOutside = 3,
    LabelWrong = 4,
    TaskCountOutside = 5,
    SeparationOutside = 6,
    BudgetOutside = 7,
    OffsetTooLarge = 8,
    HyperperiodTooLarge = 9,
    SharesTooLarge = 10,
    SlackCountWrong = 11,
    SlackNotCompliant = 12,
    BoundTooLarge = 13,
    LogLengthWrong = 14,
    LogTickTooLate = 15,
    AnswerTooShort = 16,
    TickGoesBack = 17,
    StateNotSound = 18,
    ClockAtItsEnd = 19,
    TaskNotInTable = 20,
    DemandOutside = 21,
    ReleaseTooSoon = 22,
    NoPlaceFree = 23,
    BufferTooShort = 24,
    SentenceBufferTooShort = 25,
    WishOutside = 26,
    NoSolution = 27,
    DeadlineOutside = 28,
    OffsetZero = 29,
    DeadlineNotOffset = 30,
    TasksTooFew = 31,
}

impl Rule {
    // Its number in the documents.
    pub fn number(self) -> u8
        ensures { result ≡ rule_number self }
    {
        self as u8
    }

    // The refusal by this number, at an index.
    pub fn at(self, index: u16) -> Refusal
        ensures { result ≡ refusal_by self index }
    {
        Refusal {
            number: self.number(),
            index,
        }
    }
}
