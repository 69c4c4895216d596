// Module 1: the relations of half-open ranges.
ghost use Rattle.relations.specs.Promises.{RangeContains, RangeOverlaps, RangeTouches, RangeIntersect};

use relations::{Intersected, Related};

// Whether the key is in start..end.
#[unsafe(no_mangle)]
pub extern "C" fn range_contains(start: i64, end: i64, key: i64) -> Related
    ensures { RangeContains start end key result }
{
    relations::half_open::range_contains(start, end, key)
}

// Whether a key is in both ranges.
#[unsafe(no_mangle)]
pub extern "C" fn range_overlaps(start: i64, end: i64, other_start: i64, other_end: i64) -> Related
    ensures { RangeOverlaps start end other_start other_end result }
{
    relations::half_open::range_overlaps(start, end, other_start, other_end)
}

// Whether nothing lies between the two ranges; so ranges that overlap touch too.
#[unsafe(no_mangle)]
pub extern "C" fn range_touches(start: i64, end: i64, other_start: i64, other_end: i64) -> Related
    ensures { RangeTouches start end other_start other_end result }
{
    relations::half_open::range_touches(start, end, other_start, other_end)
}

// The keys of both ranges, from the greater start to the lesser end, or 5.
#[unsafe(no_mangle)]
pub extern "C" fn range_intersect(
    start: i64,
    end: i64,
    other_start: i64,
    other_end: i64,
) -> Intersected
    ensures { RangeIntersect start end other_start other_end result }
{
    relations::half_open::range_intersect(start, end, other_start, other_end)
}
