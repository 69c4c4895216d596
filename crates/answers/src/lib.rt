// The table of answers of document 01. Each number stands here once in code, and once in specs/Answers.
#![tactic(auto)]

ghost use Rattle.std.specs.Prelude.{◌≡◌};
ghost use Rattle.answers.specs.Answers.{numbers};
ghost use Rattle.answers.specs.Refusals.{number};

// Done.
pub const DONE: u8 = 0;
// The range is empty or reversed.
pub const EMPTY_RANGE: u8 = 1;
// The result would need more ranges than a map has places.
pub const TOO_MANY: u8 = 2;
// The lent output is too short.
pub const TOO_SHORT: u8 = 3;
// The lent map or set is not well formed.
pub const NOT_FORMED: u8 = 4;
// Not covered, or no such place: an answer, not a fault.
pub const NONE_THERE: u8 = 5;
// The bytes are not a written map.
pub const NO_MAP: u8 = 6;
// The bytes are not a query.
pub const BAD_QUERY: u8 = 7;
// The zone or the date is bad.
pub const BAD_DAY: u8 = 8;
// The total is over 2^64 - 1.
pub const TOTAL_OVER: u8 = 9;
// A status outside 1 to 4 is in the day.
pub const BAD_STATUS: u8 = 10;

// All of them in their order: the code's numbers are those of the definitions.
pub fn numbers_of() -> [u8; 11]
    ensures { result ≡ numbers }
{
    [
        DONE,
        EMPTY_RANGE,
        TOO_MANY,
        TOO_SHORT,
        NOT_FORMED,
        NONE_THERE,
        NO_MAP,
        BAD_QUERY,
        BAD_DAY,
        TOTAL_OVER,
        BAD_STATUS,
    ]
}

// Why a call is refused: the faults of the table. 5 is none of them: that there is no such place is an answer.
#[derive(Clone, Copy, Debug, PartialEq, Eq)]
pub enum Refusal {
    EmptyRange,
    TooMany,
    TooShort,
    NotFormed,
    NoMap,
    BadQuery,
    BadDay,
    TotalOver,
    BadStatus,
}

impl Refusal {
    // Its number in the table.
    pub fn number(self) -> u8
        ensures { result ≡ number self }
    {
        match self {
            Refusal::EmptyRange => EMPTY_RANGE,
            Refusal::TooMany => TOO_MANY,
            Refusal::TooShort => TOO_SHORT,
            Refusal::NotFormed => NOT_FORMED,
            Refusal::NoMap => NO_MAP,
            Refusal::BadQuery => BAD_QUERY,
            Refusal::BadDay => BAD_DAY,
            Refusal::TotalOver => TOTAL_OVER,
            Refusal::BadStatus => BAD_STATUS,
        }
    }
}
