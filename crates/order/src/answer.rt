// What a call or an order answers. The enum below gives each refusal its number; specs/Answer.antt defines the number,
// the value and the text case by case.
ghost use Rattle.std.specs.Prelude.{Some};
ghost use Rattle.order.specs.Answer.{InWords, printed_as};

use std::error::Error;
use std::fmt;

// Why a call or an order was not carried out, by its number.
#[derive(Clone, Copy, Debug, PartialEq, Eq, Hash)]
pub enum Refusal {
    OutOfRange = 1,
    NoZeroth = 2,
    TooFew = 3,
    Full = 4,
    Malformed = 5,
    WrongSize = 6,
    NotSound = 7,
    ShortOutput = 8,
    PartOrder = 9,
    TooLong = 10,
    LeafLacks = 11,
}

// The value of a call or an order that is carried out, or why it was not.
pub type Answer = Result<u64, Refusal>;

// An answer as two words.
#[derive(Clone, Copy, Debug, PartialEq, Eq, Hash)]
pub struct TwoWords {
    pub code: u64,
    pub value: u64,
}

// An answer's number and value.
impl From<Answer> for TwoWords {
    ghost from_gives = { InWords };

    #[tactic(auto, unfolding(crate::specs::Answer::code, crate::specs::Answer::value))]
    fn from(answer: Answer) -> TwoWords {
        match answer {
            Ok(value) => TwoWords { code: 0, value },
            Err(refusal) => TwoWords {
                code: refusal as u64,
                value: 0,
            },
        }
    }
}

// For a host on the ground that prints why.
impl fmt::Display for Refusal {
    ghost output = { λ r. Some (printed_as r) };

    fn fmt<W: fmt::Write>(&self, f: &mut fmt::Formatter<W>) -> fmt::Result {
        f.write_str(match self {
            Refusal::OutOfRange => "index or end out of range",
            Refusal::NoZeroth => "there is no mark before the first",
            Refusal::TooFew => "too few such marks",
            Refusal::Full => "no room",
            Refusal::Malformed => "no such order",
            Refusal::WrongSize => "not as many words as a pool has",
            Refusal::NotSound => "no sound pool",
            Refusal::ShortOutput => "the output is too short",
            Refusal::PartOrder => "a part of an order",
            Refusal::TooLong => "more marks than the words have",
            Refusal::LeafLacks => "the leaf lacks the mark",
        })
    }
}

impl Error for Refusal {}
