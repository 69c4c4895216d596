// Module 1: contains, overlaps, touches and intersect, for ranges of either kind. From range_wrapper.rs, std_ext.rs and operations.rs of rangemap.
// The functions that `relations_c` exports stand in mod half_open and mod inclusive, and name their kind.
#![tactic(auto)]

pub mod half_open;
pub mod inclusive;

ghost use Rattle.std.specs.Prelude.{◌≡◌, ◌<◌};
ghost use Rattle.key.specs.InnerDecides.{Decides};
ghost use Rattle.key.specs.Rank.{rank};
ghost use Rattle.key.specs.Range.{kind_of};
ghost use Rattle.relations.specs.Relations.{range_contains, ranges_overlap, ranges_touch, ranges_intersect, relation_in_c, common_in_c};

use answers::{DONE, NONE_THERE, Refusal};
use key::{Bounds, RangeKind, full};

// A relation as C and Rust see it: answer 0 with yes or no, or 1. A number beside the value, since that is the layout in C.
#[repr(C)]
#[derive(Clone, Copy)]
pub struct Related {
    pub answer: u8,
    pub yes: bool,
}

// What is in common as C and Rust see it: answer 0 with the range, or 5. A number beside the value, since that is the layout in C.
#[repr(C)]
#[derive(Clone, Copy)]
pub struct Intersected {
    pub answer: u8,
    pub start: i64,
    pub end: i64,
}

// Whether a range starts before another ends.
fn starts_before(kind: RangeKind, range: Bounds, other: Bounds) -> bool
    ensures { Decides result (rank range.start < (kind_of kind).past other.end) }
{
    full(kind, range.start, other.end)
}

// Whether the key is in the range: not before its start, and before its end.
pub fn contains(kind: RangeKind, range: Bounds, key: i64) -> Result<bool, Refusal>
    ensures { result ≡ range_contains (kind_of kind) range.start range.end key }
{
    if !starts_before(kind, range, range) {
        return Err(Refusal::EmptyRange);
    }
    Ok(range.start <= key && full(kind, key, range.end))
}

// Whether each of two ranges has a key: it starts before its own end.
fn both_full(kind: RangeKind, range: Bounds, other: Bounds) -> bool
    ensures { Decides result ((rank range.start < (kind_of kind).past range.end) × (rank other.start < (kind_of kind).past other.end)) }
{
    starts_before(kind, range, range) && starts_before(kind, other, other)
}

// Whether some key is in both ranges: each starts before the other's end.
pub fn overlaps(kind: RangeKind, range: Bounds, other: Bounds) -> Result<bool, Refusal>
    ensures { result ≡ ranges_overlap (kind_of kind) range.start range.end other.start other.end }
{
    if !both_full(kind, range, other) {
        return Err(Refusal::EmptyRange);
    }
    Ok(starts_before(kind, range, other) && starts_before(kind, other, range))
}

// Whether some key lies past a range and before another. One is added to an end only where a later key was seen, so the greatest key is an
// end like any other.
fn apart(kind: RangeKind, range: Bounds, other: Bounds) -> bool
    ensures { Decides result ((kind_of kind).past range.end < rank other.start) }
{
    let end = range.end;
    let start = other.start;
    start > end
        && match kind {
            RangeKind::HalfOpen => true,
            RangeKind::Inclusive => key::next(end) < start,
        }
}

// Whether nothing lies between the ranges: they overlap, or one begins right where the other ends.
pub fn touches(kind: RangeKind, range: Bounds, other: Bounds) -> Result<bool, Refusal>
    ensures { result ≡ ranges_touch (kind_of kind) range.start range.end other.start other.end }
{
    if !both_full(kind, range, other) {
        return Err(Refusal::EmptyRange);
    }
    Ok(!apart(kind, other, range) && !apart(kind, range, other))
}

// What both ranges have: from the greater start to the lesser end, if a key is left. Any pair is taken.
pub fn intersect(kind: RangeKind, range: Bounds, other: Bounds) -> Option<Bounds>
    ensures { result ≡ ranges_intersect (kind_of kind) range.start range.end other.start other.end }
{
    let start = key::max(range.start, other.start);
    let end = key::min(range.end, other.end);
    full(kind, start, end).then_some(Bounds { start, end })
}

impl From<Result<bool, Refusal>> for Related {
    fn from(relation: Result<bool, Refusal>) -> Related
        ensures { result ≡ relation_in_c relation }
    {
        match relation {
            Ok(yes) => Related { answer: DONE, yes },
            Err(why) => Related {
                answer: why.number(),
                yes: false,
            },
        }
    }
}

impl From<Option<Bounds>> for Intersected {
    fn from(common: Option<Bounds>) -> Intersected
        ensures { result ≡ common_in_c common }
    {
        match common {
            Some(Bounds { start, end }) => Intersected {
                answer: DONE,
                start,
                end,
            },
            None => Intersected {
                answer: NONE_THERE,
                start: 0,
                end: 0,
            },
        }
    }
}
