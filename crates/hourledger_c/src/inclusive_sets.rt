// Module 5: the inclusive set.
ghost use Rattle.inclusive_set.specs.Promises.{RangeInclusiveSetNew, RangeInclusiveSetIsEmpty, RangeInclusiveSetLen, RangeInclusiveSetRangeAt, RangeInclusiveSetFirst, RangeInclusiveSetLast, RangeInclusiveSetGet, RangeInclusiveSetContains, RangeInclusiveSetOverlaps, RangeInclusiveSetOverlapping, RangeInclusiveSetGaps, RangeInclusiveSetEq, RangeInclusiveSetCmp, RangeInclusiveSetInsert, RangeInclusiveSetRemove, RangeInclusiveSetExtend, RangeInclusiveSetClear, RangeInclusiveSetWellFormed, RangeInclusiveSetIntersection, RangeInclusiveSetUnion, RangeInclusiveSetTotal};

use inclusive_set::RangeInclusiveSet;
use outcomes::{Applied, Count, Order, Range, Stretch, Told, Total};

// A new set, which covers nothing.
#[unsafe(no_mangle)]
pub extern "C" fn range_inclusive_set_new() -> RangeInclusiveSet
    ensures { RangeInclusiveSetNew result }
{
    inclusive_set::range_inclusive_set_new()
}

// Whether nothing is held.
#[unsafe(no_mangle)]
pub extern "C" fn range_inclusive_set_is_empty(m: &RangeInclusiveSet) -> Told
    ensures { RangeInclusiveSetIsEmpty m.now result }
{
    inclusive_set::range_inclusive_set_is_empty(m)
}

// How many ranges are held.
#[unsafe(no_mangle)]
pub extern "C" fn range_inclusive_set_len(m: &RangeInclusiveSet) -> Count
    ensures { RangeInclusiveSetLen m.now result }
{
    inclusive_set::range_inclusive_set_len(m)
}

// The range at a place.
#[unsafe(no_mangle)]
pub extern "C" fn range_inclusive_set_range_at(m: &RangeInclusiveSet, place: usize) -> Range
    ensures { RangeInclusiveSetRangeAt m.now place result }
{
    inclusive_set::range_inclusive_set_range_at(m, place)
}

// The first range.
#[unsafe(no_mangle)]
pub extern "C" fn range_inclusive_set_first(m: &RangeInclusiveSet) -> Range
    ensures { RangeInclusiveSetFirst m.now result }
{
    inclusive_set::range_inclusive_set_first(m)
}

// The last range.
#[unsafe(no_mangle)]
pub extern "C" fn range_inclusive_set_last(m: &RangeInclusiveSet) -> Range
    ensures { RangeInclusiveSetLast m.now result }
{
    inclusive_set::range_inclusive_set_last(m)
}

// The range that holds the key.
#[unsafe(no_mangle)]
pub extern "C" fn range_inclusive_set_get(m: &RangeInclusiveSet, key: i64) -> Range
    ensures { RangeInclusiveSetGet m.now key result }
{
    inclusive_set::range_inclusive_set_get(m, key)
}

// Whether some range holds the key.
#[unsafe(no_mangle)]
pub extern "C" fn range_inclusive_set_contains(m: &RangeInclusiveSet, key: i64) -> Told
    ensures { RangeInclusiveSetContains m.now key result }
{
    inclusive_set::range_inclusive_set_contains(m, key)
}

// Whether some range has a key of the query.
#[unsafe(no_mangle)]
pub extern "C" fn range_inclusive_set_overlaps(m: &RangeInclusiveSet, start: i64, end: i64) -> Told
    ensures { RangeInclusiveSetOverlaps m.now start end result }
{
    inclusive_set::range_inclusive_set_overlaps(m, start, end)
}

// Which consecutive stored part meets the query.
#[unsafe(no_mangle)]
pub extern "C" fn range_inclusive_set_overlapping(
    m: &RangeInclusiveSet,
    start: i64,
    end: i64,
) -> Stretch
    ensures { RangeInclusiveSetOverlapping m.now start end result }
{
    inclusive_set::range_inclusive_set_overlapping(m, start, end)
}

// The maximal uncovered ranges inside start..=end, into the first places of two lent lists.
#[unsafe(no_mangle)]
pub extern "C" fn range_inclusive_set_gaps(
    m: &RangeInclusiveSet,
    start: i64,
    end: i64,
    out_starts: &mut [i64],
    out_ends: &mut [i64],
) -> Count
    ensures { RangeInclusiveSetGaps m.now start end out_starts.old out_starts.new out_ends.old out_ends.new result }
{
    inclusive_set::range_inclusive_set_gaps(m, start, end, out_starts, out_ends)
}

// Whether two sets hold the same ranges.
#[unsafe(no_mangle)]
pub extern "C" fn range_inclusive_set_eq(a: &RangeInclusiveSet, b: &RangeInclusiveSet) -> Told
    ensures { RangeInclusiveSetEq a.now b.now result }
{
    inclusive_set::range_inclusive_set_eq(a, b)
}

// Which of two sets comes first: -1, 0 or 1.
#[unsafe(no_mangle)]
pub extern "C" fn range_inclusive_set_cmp(a: &RangeInclusiveSet, b: &RangeInclusiveSet) -> Order
    ensures { RangeInclusiveSetCmp a.now b.now result }
{
    inclusive_set::range_inclusive_set_cmp(a, b)
}

// Covers each instant of start..=end, and no other.
#[unsafe(no_mangle)]
pub extern "C" fn range_inclusive_set_insert(m: &mut RangeInclusiveSet, start: i64, end: i64) -> u8
    ensures { RangeInclusiveSetInsert m.old m.new start end result }
{
    inclusive_set::range_inclusive_set_insert(m, start, end)
}

// Uncovers exactly the instants of start..=end.
#[unsafe(no_mangle)]
pub extern "C" fn range_inclusive_set_remove(m: &mut RangeInclusiveSet, start: i64, end: i64) -> u8
    ensures { RangeInclusiveSetRemove m.old m.new start end result }
{
    inclusive_set::range_inclusive_set_remove(m, start, end)
}

// Inserts the ranges of two lent lists in order, up to the first refusal.
#[unsafe(no_mangle)]
pub extern "C" fn range_inclusive_set_extend(
    m: &mut RangeInclusiveSet,
    starts: &[i64],
    ends: &[i64],
) -> Applied
    ensures { RangeInclusiveSetExtend m.old m.new starts.now ends.now result }
{
    inclusive_set::range_inclusive_set_extend(m, starts, ends)
}

// Leaves nothing covered, whatever the set was.
#[unsafe(no_mangle)]
pub extern "C" fn range_inclusive_set_clear(m: &mut RangeInclusiveSet)
    ensures { RangeInclusiveSetClear m.old m.new }
{
    inclusive_set::range_inclusive_set_clear(m);
}

// Whether a map is well formed.
#[unsafe(no_mangle)]
pub extern "C" fn range_inclusive_set_well_formed(m: &RangeInclusiveSet) -> bool
    ensures { RangeInclusiveSetWellFormed m.now result }
{
    inclusive_set::range_inclusive_set_well_formed(m)
}

// The common points of two sets as maximal ranges, into the first places of two lent lists.
#[unsafe(no_mangle)]
pub extern "C" fn range_inclusive_set_intersection(
    a: &RangeInclusiveSet,
    b: &RangeInclusiveSet,
    out_starts: &mut [i64],
    out_ends: &mut [i64],
) -> Count
    ensures { RangeInclusiveSetIntersection a.now b.now out_starts.old out_starts.new out_ends.old out_ends.new result }
{
    inclusive_set::range_inclusive_set_intersection(a, b, out_starts, out_ends)
}

// The points of either set, into the first places of two lent lists. Ranges that only touch across the two sets stay apart.
#[unsafe(no_mangle)]
pub extern "C" fn range_inclusive_set_union(
    a: &RangeInclusiveSet,
    b: &RangeInclusiveSet,
    out_starts: &mut [i64],
    out_ends: &mut [i64],
) -> Count
    ensures { RangeInclusiveSetUnion a.now b.now out_starts.old out_starts.new out_ends.old out_ends.new result }
{
    inclusive_set::range_inclusive_set_union(a, b, out_starts, out_ends)
}

// How many keys are covered, as a u64; 9 if that is over 2^64 - 1.
#[unsafe(no_mangle)]
pub extern "C" fn range_inclusive_set_total(m: &RangeInclusiveSet) -> Total
    ensures { RangeInclusiveSetTotal m.now result }
{
    inclusive_set::range_inclusive_set_total(m)
}
