// What the functions of a map are lent and what they answer. Inside, an answer is a `Result` whose error says why the call is refused;
// C and Rust see it as a struct of numbers. Both kinds of map, and the sets, share them.
#![tactic(auto)]

ghost use Rattle.std.specs.Prelude.{◌≡◌};
ghost use Rattle.key.specs.Range.{Kind};
ghost use Rattle.outcomes.specs.Stored.{places};
ghost use Rattle.outcomes.specs.Lent.{of_ref};
ghost use Rattle.outcomes.specs.Outcomes.{clear};
ghost use Rattle.outcomes.specs.Numbers.{asked_in_c, counted_in_c, found_in_c, part_in_c, compared_in_c, equal_of, totalled_in_c};
ghost use Rattle.outcomes.specs.InnerOutcome.{outcome_in_c};

use answers::{DONE, NONE_THERE, Refusal};
use key::{Entry, Value};
use std::cmp::Ordering;

// How many places a map has.
pub const PLACES: usize = 512;

// Ties the constant to the number that the contracts name.
pub fn places_of() -> usize
    ensures { result ≡ places }
{
    PLACES
}

// What a map of either kind stores: the first `count` places hold its ranges, ascending; the others hold 0. The structs that C and Rust see hold it.
#[repr(C)]
#[derive(Drop)]
pub struct Stored {
    pub count: usize,
    pub starts: [i64; PLACES],
    pub ends: [i64; PLACES],
    pub values: [Value; PLACES],
}

// The same, lent as columns of any length: what the functions take that only read a map.
#[derive(Clone, Copy)]
pub struct StoredRef<'a> {
    pub count: usize,
    pub starts: &'a [i64],
    pub ends: &'a [i64],
    pub values: &'a [Value],
}

// A consecutive part of the places: the first, and how many.
#[derive(Clone, Copy, Debug, PartialEq, Eq)]
pub struct Part {
    pub place: usize,
    pub count: usize,
}

// Yes or no, in C.
#[repr(C)]
#[derive(Clone, Copy)]
pub struct Told {
    pub answer: u8,
    pub yes: bool,
}

// How many, in C.
#[repr(C)]
#[derive(Clone, Copy)]
pub struct Count {
    pub answer: u8,
    pub count: usize,
}

// A stored range and its value, in C.
#[repr(C)]
#[derive(Clone, Copy)]
pub struct Range {
    pub answer: u8,
    pub start: i64,
    pub end: i64,
    pub value: Value,
}

// A part of the places, in C.
#[repr(C)]
#[derive(Clone, Copy)]
pub struct Stretch {
    pub answer: u8,
    pub place: usize,
    pub count: usize,
}

// How two maps compare, in C: -1, 0 or 1.
#[repr(C)]
#[derive(Clone, Copy)]
pub struct Order {
    pub answer: u8,
    pub order: i8,
}

// How many keys a set covers, in C.
#[repr(C)]
#[derive(Clone, Copy)]
pub struct Total {
    pub answer: u8,
    pub total: u64,
}

// How a list of edits went: the first refusal, or 0, and how many were applied before it.
#[repr(C)]
#[derive(Clone, Copy)]
pub struct Applied {
    pub answer: u8,
    pub applied: usize,
}

impl From<Result<bool, Refusal>> for Told {
    ghost from_gives = { λ a r. r ≡ asked_in_c a };

    fn from(asked: Result<bool, Refusal>) -> Told {
        match asked {
            Ok(yes) => Told { answer: DONE, yes },
            Err(why) => Told {
                answer: why.number(),
                yes: false,
            },
        }
    }
}

impl From<Result<usize, Refusal>> for Count {
    ghost from_gives = { λ a r. r ≡ counted_in_c a };

    fn from(counted: Result<usize, Refusal>) -> Count {
        match counted {
            Ok(count) => Count {
                answer: DONE,
                count,
            },
            Err(why) => Count {
                answer: why.number(),
                count: 0,
            },
        }
    }
}

impl From<Result<Option<Entry>, Refusal>> for Range {
    ghost from_gives = { λ a r. r ≡ found_in_c a };

    // Three whole answers: one that is put together behind the match goes through memory, and a lookup in an empty map took twice the time.
    fn from(found: Result<Option<Entry>, Refusal>) -> Range {
        match found {
            Ok(Some(entry)) => Range {
                answer: DONE,
                start: entry.start,
                end: entry.end,
                value: entry.value,
            },
            Ok(None) => Range {
                answer: NONE_THERE,
                start: 0,
                end: 0,
                value: 0,
            },
            Err(why) => Range {
                answer: why.number(),
                start: 0,
                end: 0,
                value: 0,
            },
        }
    }
}

impl From<Result<Part, Refusal>> for Stretch {
    ghost from_gives = { λ a r. r ≡ part_in_c a };

    fn from(part: Result<Part, Refusal>) -> Stretch {
        match part {
            Ok(part) => Stretch {
                answer: DONE,
                place: part.place,
                count: part.count,
            },
            Err(why) => Stretch {
                answer: why.number(),
                place: 0,
                count: 0,
            },
        }
    }
}

impl From<Result<Ordering, Refusal>> for Order {
    ghost from_gives = { λ a r. r ≡ compared_in_c a };

    fn from(compared: Result<Ordering, Refusal>) -> Order {
        match compared {
            Ok(order) => Order {
                answer: DONE,
                order: order as i8,
            },
            Err(why) => Order {
                answer: why.number(),
                order: 0,
            },
        }
    }
}

impl From<Result<u64, Refusal>> for Total {
    ghost from_gives = { λ a r. r ≡ totalled_in_c a };

    fn from(totalled: Result<u64, Refusal>) -> Total {
        match totalled {
            Ok(total) => Total {
                answer: DONE,
                total,
            },
            Err(why) => Total {
                answer: why.number(),
                total: 0,
            },
        }
    }
}

// The number of an edit's answer.
pub fn number_of(edited: Result<(), Refusal>) -> u8
    ensures { result ≡ outcome_in_c edited }
{
    match edited {
        Ok(()) => DONE,
        Err(why) => why.number(),
    }
}

// Whether two maps are equal, by how they compare.
pub fn equal_of(compared: Result<Ordering, Refusal>) -> Result<bool, Refusal>
    ensures { result ≡ equal_of compared }
{
    Ok(compared?.is_eq())
}

impl Stored {
    // A map that holds nothing, of either kind.
    pub fn new() -> Stored
        ensures { (k : Kind) → result ≡ clear k }
    {
        Stored {
            count: 0,
            starts: [0; PLACES],
            ends: [0; PLACES],
            values: [0; PLACES],
        }
    }

    // The map, lent as its columns.
    pub fn lent(&self) -> StoredRef<'_>
        ensures { of_ref result ≡ self.now }
    {
        StoredRef {
            count: self.count,
            starts: &self.starts,
            ends: &self.ends,
            values: &self.values,
        }
    }
}
