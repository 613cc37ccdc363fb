// Why a call is refused.
#![tactic(auto)]

ghost use Rattle.std.specs.Prelude.{◌≡◌};
ghost use Rattle.refusal_kind.specs.Number.{number, number_of};

use model::{Answer, Counts, CrowdLimits, Peeled};

// A number of documents 01 and 02, but 0.
#[derive(Clone, Copy, Debug, PartialEq, Eq)]
pub enum Refusal {
    TooManyOperators = 1,
    TooManyRides = 2,
    TooShort = 3,
    TooManyPairs = 4,
    BadPair = 5,
    NoStampOfPair = 6,
    BadKind = 7,
    OutOfRange = 8,
    NoStamp = 9,
    NotLater = 10,
    BadMark = 12,
    BadLength = 13,
    LargeRevision = 14,
    UnusedField = 15,
    BadBands = 16,
    BandsOverlap = 17,
    BandsLeaveGap = 18,
}

impl Refusal {
    // The number that the controller is told.
    pub fn number(self) -> u16
        ensures { result ≡ number self }
    {
        self as u16
    }

    // The number that a check answers: 0 where it refuses nothing.
    pub fn number_of<T: Copy>(checked: Result<T, Refusal>) -> u16
        ensures { result ≡ number_of checked }
    {
        match checked {
            Ok(_) => 0,
            Err(refusal) => refusal.number(),
        }
    }
}

// A refused query or cover counts nothing.
impl From<Refusal> for Counts {
    ghost from_gives = { λ refusal counts. counts ≡ record { code = number refusal; operators = 0; rides = 0 } };

    fn from(refusal: Refusal) -> Counts {
        Counts {
            code: refusal.number(),
            operators: 0,
            rides: 0,
        }
    }
}

// A refused peel is unsettled, and took no step.
impl From<Refusal> for Peeled {
    ghost from_gives = { λ refusal peeled. peeled ≡ record { code = number refusal; settled = 0; steps = 0 } };

    fn from(refusal: Refusal) -> Peeled {
        Peeled {
            code: refusal.number(),
            settled: 0,
            steps: 0,
        }
    }
}

// A refused message leaves no word of the index that differs.
impl From<Refusal> for Answer {
    ghost from_gives = { λ refusal answer. answer ≡ record { code = number refusal; differ = 0 } };

    fn from(refusal: Refusal) -> Answer {
        Answer {
            code: refusal.number(),
            differ: 0,
        }
    }
}

// A refused look-up gives no limits.
impl From<Refusal> for CrowdLimits {
    ghost from_gives = { λ refusal limits. limits ≡ record { code = number refusal; alpha = 0; beta = 0 } };

    fn from(refusal: Refusal) -> CrowdLimits {
        CrowdLimits {
            code: refusal.number(),
            alpha: 0,
            beta: 0,
        }
    }
}
