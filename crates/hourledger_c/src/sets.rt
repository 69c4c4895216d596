// Module 5: the half-open set.
ghost use Rattle.set.specs.Promises.{RangeSetNew, RangeSetIsEmpty, RangeSetLen, RangeSetRangeAt, RangeSetFirst, RangeSetLast, RangeSetGet, RangeSetContains, RangeSetOverlaps, RangeSetOverlapping, RangeSetGaps, RangeSetEq, RangeSetCmp, RangeSetInsert, RangeSetRemove, RangeSetExtend, RangeSetClear, RangeSetWellFormed, RangeSetIntersection, RangeSetUnion, RangeSetTotal};

use outcomes::{Applied, Count, Order, Range, Stretch, Told, Total};
use set::RangeSet;

// A new set, which covers nothing.
#[unsafe(no_mangle)]
pub extern "C" fn range_set_new() -> RangeSet
    ensures { RangeSetNew result }
{
    set::range_set_new()
}

// Whether nothing is held.
#[unsafe(no_mangle)]
pub extern "C" fn range_set_is_empty(m: &RangeSet) -> Told
    ensures { RangeSetIsEmpty m.now result }
{
    set::range_set_is_empty(m)
}

// How many ranges are held.
#[unsafe(no_mangle)]
pub extern "C" fn range_set_len(m: &RangeSet) -> Count
    ensures { RangeSetLen m.now result }
{
    set::range_set_len(m)
}

// The range at a place.
#[unsafe(no_mangle)]
pub extern "C" fn range_set_range_at(m: &RangeSet, place: usize) -> Range
    ensures { RangeSetRangeAt m.now place result }
{
    set::range_set_range_at(m, place)
}

// The first range.
#[unsafe(no_mangle)]
pub extern "C" fn range_set_first(m: &RangeSet) -> Range
    ensures { RangeSetFirst m.now result }
{
    set::range_set_first(m)
}

// The last range.
#[unsafe(no_mangle)]
pub extern "C" fn range_set_last(m: &RangeSet) -> Range
    ensures { RangeSetLast m.now result }
{
    set::range_set_last(m)
}

// The range that holds the key.
#[unsafe(no_mangle)]
pub extern "C" fn range_set_get(m: &RangeSet, key: i64) -> Range
    ensures { RangeSetGet m.now key result }
{
    set::range_set_get(m, key)
}

// Whether some range holds the key.
#[unsafe(no_mangle)]
pub extern "C" fn range_set_contains(m: &RangeSet, key: i64) -> Told
    ensures { RangeSetContains m.now key result }
{
    set::range_set_contains(m, key)
}

// Whether some range has a key of the query.
#[unsafe(no_mangle)]
pub extern "C" fn range_set_overlaps(m: &RangeSet, start: i64, end: i64) -> Told
    ensures { RangeSetOverlaps m.now start end result }
{
    set::range_set_overlaps(m, start, end)
}

// Which consecutive stored part meets the query.
#[unsafe(no_mangle)]
pub extern "C" fn range_set_overlapping(m: &RangeSet, start: i64, end: i64) -> Stretch
    ensures { RangeSetOverlapping m.now start end result }
{
    set::range_set_overlapping(m, start, end)
}

// The maximal uncovered ranges inside start..end, into the first places of two lent lists.
#[unsafe(no_mangle)]
pub extern "C" fn range_set_gaps(
    m: &RangeSet,
    start: i64,
    end: i64,
    out_starts: &mut [i64],
    out_ends: &mut [i64],
) -> Count
    ensures { RangeSetGaps m.now start end out_starts.old out_starts.new out_ends.old out_ends.new result }
{
    set::range_set_gaps(m, start, end, out_starts, out_ends)
}

// Whether two sets hold the same ranges.
#[unsafe(no_mangle)]
pub extern "C" fn range_set_eq(a: &RangeSet, b: &RangeSet) -> Told
    ensures { RangeSetEq a.now b.now result }
{
    set::range_set_eq(a, b)
}

// Which of two sets comes first: -1, 0 or 1.
#[unsafe(no_mangle)]
pub extern "C" fn range_set_cmp(a: &RangeSet, b: &RangeSet) -> Order
    ensures { RangeSetCmp a.now b.now result }
{
    set::range_set_cmp(a, b)
}

// Covers each instant of start..end, and no other.
#[unsafe(no_mangle)]
pub extern "C" fn range_set_insert(m: &mut RangeSet, start: i64, end: i64) -> u8
    ensures { RangeSetInsert m.old m.new start end result }
{
    set::range_set_insert(m, start, end)
}

// Uncovers exactly the instants of start..end.
#[unsafe(no_mangle)]
pub extern "C" fn range_set_remove(m: &mut RangeSet, start: i64, end: i64) -> u8
    ensures { RangeSetRemove m.old m.new start end result }
{
    set::range_set_remove(m, start, end)
}

// Inserts the ranges of two lent lists in order, up to the first refusal.
#[unsafe(no_mangle)]
pub extern "C" fn range_set_extend(m: &mut RangeSet, starts: &[i64], ends: &[i64]) -> Applied
    ensures { RangeSetExtend m.old m.new starts.now ends.now result }
{
    set::range_set_extend(m, starts, ends)
}

// Leaves nothing covered, whatever the set was.
#[unsafe(no_mangle)]
pub extern "C" fn range_set_clear(m: &mut RangeSet)
    ensures { RangeSetClear m.old m.new }
{
    set::range_set_clear(m);
}

// Whether a map is well formed.
#[unsafe(no_mangle)]
pub extern "C" fn range_set_well_formed(m: &RangeSet) -> bool
    ensures { RangeSetWellFormed m.now result }
{
    set::range_set_well_formed(m)
}

// The common points of two sets as maximal ranges, into the first places of two lent lists.
#[unsafe(no_mangle)]
pub extern "C" fn range_set_intersection(
    a: &RangeSet,
    b: &RangeSet,
    out_starts: &mut [i64],
    out_ends: &mut [i64],
) -> Count
    ensures { RangeSetIntersection a.now b.now out_starts.old out_starts.new out_ends.old out_ends.new result }
{
    set::range_set_intersection(a, b, out_starts, out_ends)
}

// The points of either set, into the first places of two lent lists. Ranges that only touch across the two sets stay apart.
#[unsafe(no_mangle)]
pub extern "C" fn range_set_union(
    a: &RangeSet,
    b: &RangeSet,
    out_starts: &mut [i64],
    out_ends: &mut [i64],
) -> Count
    ensures { RangeSetUnion a.now b.now out_starts.old out_starts.new out_ends.old out_ends.new result }
{
    set::range_set_union(a, b, out_starts, out_ends)
}

// How many keys are covered, as a u64; 9 if that is over 2^64 - 1.
#[unsafe(no_mangle)]
pub extern "C" fn range_set_total(m: &RangeSet) -> Total
    ensures { RangeSetTotal m.now result }
{
    set::range_set_total(m)
}
