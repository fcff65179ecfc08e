// Why a call is refused, and the number of each reason (docs/SPEC.md, "Who causes which refusal").
#![tactic(auto)]

ghost use Rattle.std.specs.Prelude.{◌≡◌};
ghost use Rattle.refusal.specs.Refusal.{number, answered_number};

use std::error::Error;
use std::fmt;

#[derive(Clone, Copy, Debug, PartialEq, Eq, Hash)]
pub enum Refusal {
    // A setting out of its range, or settings of another length.
    Settings = 1,
    // Memory or a state that is not as a call leaves it.
    Memory = 2,
    // Not the bytes of a sample.
    Form = 3,
    // An unknown layout.
    Tag = 4,
    // Too few I/Q bytes.
    Iq = 5,
    // No space for the answer.
    Space = 6,
    // Features or angles with a count out of range.
    Count = 7,
    // The baseline takes no more frames.
    Full = 8,
    // An unknown kind of record, or one cut short.
    Record = 9,
    // Sequences: the number of choices, their length or the spacing out of range.
    Chance = 13,
}

impl Refusal {
    // Its number; 0 is no refusal's.
    pub fn number(self) -> u8
        ensures { result ≡ number self }
    {
        self as u8
    }
}

impl fmt::Display for Refusal {
    ghost use Rattle.std.specs.Prelude.{Some};
    ghost use Rattle.refusal.specs.Refusal.{refused};

    ghost output = { λ refusal. Some (refused refusal) };

    fn fmt<W: fmt::Write>(&self, f: &mut fmt::Formatter<W>) -> fmt::Result {
        write!(f, "refused {}", self.number())
    }
}

impl Error for Refusal {}

// The number of an answer: 0 where it is not refused.
pub fn answered_number<T: Drop>(answer: Result<T, Refusal>) -> u8
    ensures { result ≡ answered_number answer }
{
    match answer {
        Ok(_) => 0,
        Err(refusal) => refusal.number(),
    }
}
