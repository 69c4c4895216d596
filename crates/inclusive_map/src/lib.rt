// Module 3: the inclusive map, from inclusive_map.rs of rangemap. Its functions, which `hourledger_c` exports for C and Rust: each lends the map that
// its struct holds to a function of `map_abi`, which answers in numbers, or of `map_ops` where that does. Rattle callers use `map_ops`. The functions of
// `map` are twins of these, since C calls each by a name and with a struct of its own.
#![tactic(auto)]

ghost use Rattle.key.specs.Range.{inclusive};
ghost use Rattle.outcomes.specs.Stored.{Sound, stored};
ghost use Rattle.inclusive_map.specs.Map.{held};
ghost use Rattle.inclusive_map.specs.Promises.{RangeInclusiveMapNew, RangeInclusiveMapIsEmpty, RangeInclusiveMapLen, RangeInclusiveMapRangeAt};
ghost use Rattle.inclusive_map.specs.Promises.{RangeInclusiveMapFirstRangeValue, RangeInclusiveMapLastRangeValue, RangeInclusiveMapGetKeyValue};
ghost use Rattle.inclusive_map.specs.Promises.{RangeInclusiveMapContainsKey, RangeInclusiveMapOverlaps, RangeInclusiveMapOverlapping};
ghost use Rattle.inclusive_map.specs.Promises.{RangeInclusiveMapGaps, RangeInclusiveMapEq, RangeInclusiveMapCmp, RangeInclusiveMapInsert};
ghost use Rattle.inclusive_map.specs.Promises.{RangeInclusiveMapRemove, RangeInclusiveMapClear, RangeInclusiveMapExtend, RangeInclusiveMapWellFormed};
ghost use Rattle.inclusive_map.specs.Promises.{RangeInclusiveMapGetKeyValueUnchecked, RangeInclusiveMapGapsUnchecked};
ghost use Rattle.inclusive_map.specs.Promises.{RangeInclusiveMapInsertUnchecked, RangeInclusiveMapRemoveUnchecked};

use key::{RangeKind, Value};
use outcomes::{Applied, Count, Order, Range, Stored, Stretch, Told};

// The kind of this map's ranges.
const KIND: RangeKind = RangeKind::Inclusive;

// A map of inclusive ranges: the first `count` places hold the ranges, ascending; the others hold 0.
#[repr(C)]
#[derive(Drop)]
pub struct RangeInclusiveMap {
    pub stored: Stored,
}

// A new map, which holds nothing.
pub fn range_inclusive_map_new() -> RangeInclusiveMap
    ensures { RangeInclusiveMapNew result }
{
    RangeInclusiveMap {
        stored: Stored::new(),
    }
}

// Whether nothing is held.
pub fn range_inclusive_map_is_empty(m: &RangeInclusiveMap) -> Told
    ensures { RangeInclusiveMapIsEmpty m.now result }
{
    map_abi::is_empty(KIND, &m.stored)
}

// How many ranges are held.
pub fn range_inclusive_map_len(m: &RangeInclusiveMap) -> Count
    ensures { RangeInclusiveMapLen m.now result }
{
    map_abi::len(KIND, &m.stored)
}

// The range and the value at a place.
pub fn range_inclusive_map_range_at(m: &RangeInclusiveMap, place: usize) -> Range
    ensures { RangeInclusiveMapRangeAt m.now place result }
{
    map_abi::range_at(KIND, &m.stored, place)
}

// The first range and its value.
pub fn range_inclusive_map_first_range_value(m: &RangeInclusiveMap) -> Range
    ensures { RangeInclusiveMapFirstRangeValue m.now result }
{
    map_abi::first_range_value(KIND, &m.stored)
}

// The last range and its value.
pub fn range_inclusive_map_last_range_value(m: &RangeInclusiveMap) -> Range
    ensures { RangeInclusiveMapLastRangeValue m.now result }
{
    map_abi::last_range_value(KIND, &m.stored)
}

// The range that holds the key, and its value.
pub fn range_inclusive_map_get_key_value(m: &RangeInclusiveMap, key: i64) -> Range
    ensures { RangeInclusiveMapGetKeyValue m.now key result }
{
    map_abi::get_key_value(KIND, &m.stored, key)
}

// Whether some range holds the key.
pub fn range_inclusive_map_contains_key(m: &RangeInclusiveMap, key: i64) -> Told
    ensures { RangeInclusiveMapContainsKey m.now key result }
{
    map_abi::contains_key(KIND, &m.stored, key)
}

// Whether some range has a key of the query.
pub fn range_inclusive_map_overlaps(m: &RangeInclusiveMap, start: i64, end: i64) -> Told
    ensures { RangeInclusiveMapOverlaps m.now start end result }
{
    map_abi::overlaps(KIND, &m.stored, start, end)
}

// Which consecutive stored part meets the query.
pub fn range_inclusive_map_overlapping(m: &RangeInclusiveMap, start: i64, end: i64) -> Stretch
    ensures { RangeInclusiveMapOverlapping m.now start end result }
{
    map_abi::overlapping(KIND, &m.stored, start, end)
}

// The maximal uncovered ranges inside start..=end, into the first places of two lent lists.
pub fn range_inclusive_map_gaps(
    m: &RangeInclusiveMap,
    start: i64,
    end: i64,
    out_starts: &mut [i64],
    out_ends: &mut [i64],
) -> Count
    ensures { RangeInclusiveMapGaps m.now start end out_starts.old out_starts.new out_ends.old out_ends.new result }
{
    map_abi::gaps(KIND, &m.stored, start, end, out_starts, out_ends)
}

// Whether two maps hold the same ranges with the same values.
pub fn range_inclusive_map_eq(a: &RangeInclusiveMap, b: &RangeInclusiveMap) -> Told
    ensures { RangeInclusiveMapEq a.now b.now result }
{
    map_abi::eq(KIND, &a.stored, &b.stored)
}

// Which of two maps comes first: -1, 0 or 1.
pub fn range_inclusive_map_cmp(a: &RangeInclusiveMap, b: &RangeInclusiveMap) -> Order
    ensures { RangeInclusiveMapCmp a.now b.now result }
{
    map_abi::cmp(KIND, &a.stored, &b.stored)
}

// Gives the value to each instant of start..=end and to no other.
pub fn range_inclusive_map_insert(
    m: &mut RangeInclusiveMap,
    start: i64,
    end: i64,
    value: Value,
) -> u8
    ensures { RangeInclusiveMapInsert m.old m.new start end value result }
{
    map_abi::insert(KIND, &mut m.stored, start, end, value)
}

// Uncovers exactly the instants of start..=end.
pub fn range_inclusive_map_remove(m: &mut RangeInclusiveMap, start: i64, end: i64) -> u8
    ensures { RangeInclusiveMapRemove m.old m.new start end result }
{
    map_abi::remove(KIND, &mut m.stored, start, end)
}

// Leaves nothing held, whatever the map was.
pub fn range_inclusive_map_clear(m: &mut RangeInclusiveMap)
    ensures { RangeInclusiveMapClear m.old m.new }
{
    map_ops::change::clear(&mut m.stored)
}

// Inserts the entries of three lent lists in order, up to the first refusal.
pub fn range_inclusive_map_extend(
    m: &mut RangeInclusiveMap,
    starts: &[i64],
    ends: &[i64],
    values: &[Value],
) -> Applied
    ensures { RangeInclusiveMapExtend m.old m.new starts.now ends.now values.now result }
{
    map_ops::change::bulk::extend(KIND, &mut m.stored, starts, ends, values)
}

// Whether a map is well formed.
pub fn range_inclusive_map_well_formed(m: &RangeInclusiveMap) -> bool
    ensures { RangeInclusiveMapWellFormed m.now result }
{
    map_abi::well_formed(KIND, &m.stored)
}

// Lookup through the unchecked door: the map must be well formed.
pub fn range_inclusive_map_get_key_value_unchecked(m: &RangeInclusiveMap, key: i64) -> Range
    requires { Sound inclusive (held m.now) }
    ensures { RangeInclusiveMapGetKeyValueUnchecked m.now key result }
{
    map_abi::get_key_value_unchecked(KIND, &m.stored, key)
}

// Gaps through the unchecked door: the map must be well formed.
pub fn range_inclusive_map_gaps_unchecked(
    m: &RangeInclusiveMap,
    start: i64,
    end: i64,
    out_starts: &mut [i64],
    out_ends: &mut [i64],
) -> Count
    requires { Sound inclusive (held m.now) }
    ensures { RangeInclusiveMapGapsUnchecked m.now start end out_starts.old out_starts.new out_ends.old out_ends.new result }
{
    map_abi::gaps_unchecked(KIND, &m.stored, start, end, out_starts, out_ends)
}

// Insert through the unchecked door: the map must be well formed.
pub fn range_inclusive_map_insert_unchecked(
    m: &mut RangeInclusiveMap,
    start: i64,
    end: i64,
    value: Value,
) -> u8
    requires { Sound inclusive (held m.old) }
    ensures { RangeInclusiveMapInsertUnchecked m.old m.new start end value result }
{
    map_abi::insert_unchecked(KIND, &mut m.stored, start, end, value)
}

// Remove through the unchecked door: the map must be well formed.
pub fn range_inclusive_map_remove_unchecked(m: &mut RangeInclusiveMap, start: i64, end: i64) -> u8
    requires { Sound inclusive (held m.old) }
    ensures { RangeInclusiveMapRemoveUnchecked m.old m.new start end result }
{
    map_abi::remove_unchecked(KIND, &mut m.stored, start, end)
}
