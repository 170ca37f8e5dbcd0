// Why a call is refused: the standard's table of numbers (standard/specs/Refusals.antt) as an enum, and the number that an answer has for C.
#![tactic(auto)]

ghost use Rattle.std.specs.Prelude.{◌≡◌};
ghost use Rattle.refusals.specs.Numbers.{answer_number, refusal_number};

use std::error::Error;
use std::fmt;

// The number of an answer that is no refusal.
pub const ACCEPTED: u32 = 0;

// A case for each number of the table. The names are those that include/zuc.h has.
#[derive(Clone, Copy, Debug, PartialEq, Eq)]
pub enum Refusal {
    BadWidth,
    BadKey,
    BadIv,
    BadState,
    BadBits,
    BadFrame,
    BadLength,
    BadField,
    BadBody,
    BadTag,
    BadReuse,
    BadAge,
    BadLink,
    Spent,
}

impl From<Refusal> for u32 {
    ghost from_gives = { λ refusal n. n ≡ refusal_number refusal };

    fn from(refusal: Refusal) -> u32 {
        match refusal {
            Refusal::BadWidth => 1,
            Refusal::BadKey => 2,
            Refusal::BadIv => 3,
            Refusal::BadState => 4,
            Refusal::BadBits => 5,
            Refusal::BadFrame => 6,
            Refusal::BadLength => 7,
            Refusal::BadField => 8,
            Refusal::BadBody => 9,
            Refusal::BadTag => 10,
            Refusal::BadReuse => 11,
            Refusal::BadAge => 12,
            Refusal::BadLink => 13,
            Refusal::Spent => 16,
        }
    }
}

impl fmt::Display for Refusal {
    fn fmt<W: fmt::Write>(&self, f: &mut fmt::Formatter<W>) -> fmt::Result {
        f.write_str(match self {
            Refusal::BadWidth => "the tag width is not 4, 8 or 16 bytes",
            Refusal::BadKey => "the key has the wrong length",
            Refusal::BadIv => "the IV has the wrong length",
            Refusal::BadState => "the state is malformed",
            Refusal::BadBits => "there are more bits than the bytes lent have",
            Refusal::BadFrame => "too few bytes for a frame, or another version",
            Refusal::BadLength => "the frame has another length than it says",
            Refusal::BadField => "the bearer or the direction is too large",
            Refusal::BadBody => "the body does not fit its bit length",
            Refusal::BadTag => "the tag is wrong",
            Refusal::BadReuse => "the COUNT was already accepted",
            Refusal::BadAge => "the COUNT is too old",
            Refusal::BadLink => "there is no such link",
            Refusal::Spent => "the start has too few words left",
        })
    }
}

impl Error for Refusal {}

// The number that a caller in C is told.
pub fn number_of<T>(answer: &Result<T, Refusal>) -> u32
    ensures { result ≡ answer_number answer.now }
{
    match answer {
        Ok(_) => ACCEPTED,
        Err(refusal) => u32::from(*refusal),
    }
}
