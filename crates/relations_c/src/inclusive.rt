// Module 1: the relations of inclusive ranges.
ghost use Rattle.relations.specs.Promises.{RangeInclusiveContains, RangeInclusiveOverlaps, RangeInclusiveTouches, RangeInclusiveIntersect};

use relations::{Intersected, Related};

// Whether the key is in start..=end.
#[unsafe(no_mangle)]
pub extern "C" fn range_inclusive_contains(start: i64, end: i64, key: i64) -> Related
    ensures { RangeInclusiveContains start end key result }
{
    relations::inclusive::range_inclusive_contains(start, end, key)
}

// Whether a key is in both ranges.
#[unsafe(no_mangle)]
pub extern "C" fn range_inclusive_overlaps(
    start: i64,
    end: i64,
    other_start: i64,
    other_end: i64,
) -> Related
    ensures { RangeInclusiveOverlaps start end other_start other_end result }
{
    relations::inclusive::range_inclusive_overlaps(start, end, other_start, other_end)
}

// Whether nothing lies between the two ranges; so ranges that overlap touch too.
#[unsafe(no_mangle)]
pub extern "C" fn range_inclusive_touches(
    start: i64,
    end: i64,
    other_start: i64,
    other_end: i64,
) -> Related
    ensures { RangeInclusiveTouches start end other_start other_end result }
{
    relations::inclusive::range_inclusive_touches(start, end, other_start, other_end)
}

// The keys of both ranges, from the greater start to the lesser end, or 5.
#[unsafe(no_mangle)]
pub extern "C" fn range_inclusive_intersect(
    start: i64,
    end: i64,
    other_start: i64,
    other_end: i64,
) -> Intersected
    ensures { RangeInclusiveIntersect start end other_start other_end result }
{
    relations::inclusive::range_inclusive_intersect(start, end, other_start, other_end)
}
