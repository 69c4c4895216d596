// Module 5: the inclusive set, from inclusive_set.rs of rangemap. Its functions, which `hourledger_c` exports for C and Rust: each lends the set that
// its struct holds to a function of `set_abi`, which answers in numbers, or of `set_ops` or `map_ops` where these do. Rattle callers use `set_ops`. The
// functions of `set` are twins of these, since C calls each by a name and with a struct of its own.
#![tactic(auto)]

ghost use Rattle.inclusive_set.specs.Promises.{RangeInclusiveSetNew, RangeInclusiveSetIsEmpty, RangeInclusiveSetLen, RangeInclusiveSetRangeAt};
ghost use Rattle.inclusive_set.specs.Promises.{RangeInclusiveSetFirst, RangeInclusiveSetLast, RangeInclusiveSetGet, RangeInclusiveSetContains};
ghost use Rattle.inclusive_set.specs.Promises.{RangeInclusiveSetOverlaps, RangeInclusiveSetOverlapping, RangeInclusiveSetGaps, RangeInclusiveSetEq};
ghost use Rattle.inclusive_set.specs.Promises.{RangeInclusiveSetCmp, RangeInclusiveSetInsert, RangeInclusiveSetRemove, RangeInclusiveSetExtend};
ghost use Rattle.inclusive_set.specs.Promises.{RangeInclusiveSetClear, RangeInclusiveSetWellFormed, RangeInclusiveSetIntersection};
ghost use Rattle.inclusive_set.specs.Promises.{RangeInclusiveSetUnion, RangeInclusiveSetTotal};

use key::RangeKind;
use operations::Operation;
use outcomes::{Applied, Count, Order, Range, Stored, Stretch, Told, Total};

// The kind of this set's ranges.
const KIND: RangeKind = RangeKind::Inclusive;

// A set of inclusive ranges: the first `count` places hold the ranges, ascending; the others hold 0. All values are 0.
#[repr(C)]
#[derive(Drop)]
pub struct RangeInclusiveSet {
    pub stored: Stored,
}

// A new set, which covers nothing.
pub fn range_inclusive_set_new() -> RangeInclusiveSet
    ensures { RangeInclusiveSetNew result }
{
    RangeInclusiveSet {
        stored: Stored::new(),
    }
}

// Whether nothing is held.
pub fn range_inclusive_set_is_empty(m: &RangeInclusiveSet) -> Told
    ensures { RangeInclusiveSetIsEmpty m.now result }
{
    set_abi::is_empty(KIND, &m.stored)
}

// How many ranges are held.
pub fn range_inclusive_set_len(m: &RangeInclusiveSet) -> Count
    ensures { RangeInclusiveSetLen m.now result }
{
    set_abi::len(KIND, &m.stored)
}

// The range at a place.
pub fn range_inclusive_set_range_at(m: &RangeInclusiveSet, place: usize) -> Range
    ensures { RangeInclusiveSetRangeAt m.now place result }
{
    set_abi::range_at(KIND, &m.stored, place)
}

// The first range.
pub fn range_inclusive_set_first(m: &RangeInclusiveSet) -> Range
    ensures { RangeInclusiveSetFirst m.now result }
{
    set_abi::first(KIND, &m.stored)
}

// The last range.
pub fn range_inclusive_set_last(m: &RangeInclusiveSet) -> Range
    ensures { RangeInclusiveSetLast m.now result }
{
    set_abi::last(KIND, &m.stored)
}

// The range that holds the key.
pub fn range_inclusive_set_get(m: &RangeInclusiveSet, key: i64) -> Range
    ensures { RangeInclusiveSetGet m.now key result }
{
    set_abi::get(KIND, &m.stored, key)
}

// Whether some range holds the key.
pub fn range_inclusive_set_contains(m: &RangeInclusiveSet, key: i64) -> Told
    ensures { RangeInclusiveSetContains m.now key result }
{
    set_abi::contains(KIND, &m.stored, key)
}

// Whether some range has a key of the query.
pub fn range_inclusive_set_overlaps(m: &RangeInclusiveSet, start: i64, end: i64) -> Told
    ensures { RangeInclusiveSetOverlaps m.now start end result }
{
    set_abi::overlaps(KIND, &m.stored, start, end)
}

// Which consecutive stored part meets the query.
pub fn range_inclusive_set_overlapping(m: &RangeInclusiveSet, start: i64, end: i64) -> Stretch
    ensures { RangeInclusiveSetOverlapping m.now start end result }
{
    set_abi::overlapping(KIND, &m.stored, start, end)
}

// The maximal uncovered ranges inside start..=end, into the first places of two lent lists.
pub fn range_inclusive_set_gaps(
    m: &RangeInclusiveSet,
    start: i64,
    end: i64,
    out_starts: &mut [i64],
    out_ends: &mut [i64],
) -> Count
    ensures { RangeInclusiveSetGaps m.now start end out_starts.old out_starts.new out_ends.old out_ends.new result }
{
    set_abi::gaps(KIND, &m.stored, start, end, out_starts, out_ends)
}

// Whether two sets hold the same ranges.
pub fn range_inclusive_set_eq(a: &RangeInclusiveSet, b: &RangeInclusiveSet) -> Told
    ensures { RangeInclusiveSetEq a.now b.now result }
{
    set_abi::eq(KIND, &a.stored, &b.stored)
}

// Which of two sets comes first: -1, 0 or 1.
pub fn range_inclusive_set_cmp(a: &RangeInclusiveSet, b: &RangeInclusiveSet) -> Order
    ensures { RangeInclusiveSetCmp a.now b.now result }
{
    set_abi::cmp(KIND, &a.stored, &b.stored)
}

// Covers each instant of start..=end, and no other.
pub fn range_inclusive_set_insert(m: &mut RangeInclusiveSet, start: i64, end: i64) -> u8
    ensures { RangeInclusiveSetInsert m.old m.new start end result }
{
    set_abi::insert(KIND, &mut m.stored, start, end)
}

// Uncovers exactly the instants of start..=end.
pub fn range_inclusive_set_remove(m: &mut RangeInclusiveSet, start: i64, end: i64) -> u8
    ensures { RangeInclusiveSetRemove m.old m.new start end result }
{
    set_abi::remove(KIND, &mut m.stored, start, end)
}

// Inserts the ranges of two lent lists in order, up to the first refusal.
pub fn range_inclusive_set_extend(
    m: &mut RangeInclusiveSet,
    starts: &[i64],
    ends: &[i64],
) -> Applied
    ensures { RangeInclusiveSetExtend m.old m.new starts.now ends.now result }
{
    set_ops::bulk::extend(KIND, &mut m.stored, starts, ends)
}

// Leaves nothing covered, whatever the set was.
pub fn range_inclusive_set_clear(m: &mut RangeInclusiveSet)
    ensures { RangeInclusiveSetClear m.old m.new }
{
    map_ops::change::clear(&mut m.stored)
}

// Whether a map is well formed.
pub fn range_inclusive_set_well_formed(m: &RangeInclusiveSet) -> bool
    ensures { RangeInclusiveSetWellFormed m.now result }
{
    set_abi::well_formed(KIND, &m.stored)
}

// The common points of two sets as maximal ranges, into the first places of two lent lists.
pub fn range_inclusive_set_intersection(
    a: &RangeInclusiveSet,
    b: &RangeInclusiveSet,
    out_starts: &mut [i64],
    out_ends: &mut [i64],
) -> Count
    ensures { RangeInclusiveSetIntersection a.now b.now out_starts.old out_starts.new out_ends.old out_ends.new result }
{
    set_abi::combine(
        KIND,
        Operation::Intersection,
        &a.stored,
        &b.stored,
        out_starts,
        out_ends,
    )
}

// The points of either set, into the first places of two lent lists. Ranges that only touch across the two sets stay apart.
pub fn range_inclusive_set_union(
    a: &RangeInclusiveSet,
    b: &RangeInclusiveSet,
    out_starts: &mut [i64],
    out_ends: &mut [i64],
) -> Count
    ensures { RangeInclusiveSetUnion a.now b.now out_starts.old out_starts.new out_ends.old out_ends.new result }
{
    set_abi::combine(
        KIND,
        Operation::Union,
        &a.stored,
        &b.stored,
        out_starts,
        out_ends,
    )
}

// How many keys are covered, as a u64; 9 if that is over 2^64 - 1.
pub fn range_inclusive_set_total(m: &RangeInclusiveSet) -> Total
    ensures { RangeInclusiveSetTotal m.now result }
{
    set_abi::total(KIND, &m.stored)
}
