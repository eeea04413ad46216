// Document 01, "Refusals, operation by operation", and the "new numbers" of document 02: why something is refused. The number that stands for
// it on paper is its conversion to a byte.
ghost use Rattle.std.specs.Prelude.{◌≡◌};
ghost use Rattle.rules.specs.RefusalNumbers.{number_of, number_in};

#[derive(Clone, Copy, Debug, PartialEq, Eq)]
pub enum Refusal {
    Unsound,
    AboveLimit,
    InUse,
    NotLive,
    NothingRuns,
    NotAServer,
    Itself,
    RunsAClient,
    NotBlocked,
    NotLinked,
    BadCharge,
    NoQuantum,
    OwnsOne,
    BadLength,
    BadVersion,
    BadRecord,
    NoRoom,
    NotSpent,
    NoSuchEvent,
    BadBlock,
    NoSuchRegister,
    NoLine,
    BadRow,
    Overlap,
    Gap,
    NeverRefused,
    NotAboveHeld,
}

impl From<Refusal> for u8 {
    ghost from_gives = { λ refusal number. number ≡ number_of refusal };

    fn from(refusal: Refusal) -> u8 {
        match refusal {
            Refusal::Unsound => 1,
            Refusal::AboveLimit => 2,
            Refusal::InUse => 3,
            Refusal::NotLive => 4,
            Refusal::NothingRuns => 5,
            Refusal::NotAServer => 6,
            Refusal::Itself => 7,
            Refusal::RunsAClient => 8,
            Refusal::NotBlocked => 9,
            Refusal::NotLinked => 10,
            Refusal::BadCharge => 11,
            Refusal::NoQuantum => 12,
            Refusal::OwnsOne => 13,
            Refusal::BadLength => 14,
            Refusal::BadVersion => 15,
            Refusal::BadRecord => 16,
            Refusal::NoRoom => 17,
            Refusal::NotSpent => 18,
            Refusal::NoSuchEvent => 19,
            Refusal::BadBlock => 20,
            Refusal::NoSuchRegister => 21,
            Refusal::NoLine => 22,
            Refusal::BadRow => 23,
            Refusal::Overlap => 24,
            Refusal::Gap => 25,
            Refusal::NeverRefused => 26,
            Refusal::NotAboveHeld => 27,
        }
    }
}

impl Refusal {
    // The number that stands on paper for an answer, 0 for an accepted one.
    pub fn number_in<T: Copy>(answer: Result<T, Refusal>) -> u8
        ensures { result ≡ number_in answer }
    {
        answer.err().map_or(0, u8::from)
    }
}
