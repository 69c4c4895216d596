// Module 2: the half-open map, from map.rs of rangemap. Its functions, which `hourledger_c` exports for C and Rust: each lends the map that its struct
// holds to a function of `map_abi`, which answers in numbers, or of `map_ops` where that does. Rattle callers use `map_ops`. The functions of
// `inclusive_map` are twins of these, since C calls each by a name and with a struct of its own.
#![tactic(auto)]

ghost use Rattle.key.specs.Range.{half_open};
ghost use Rattle.outcomes.specs.Stored.{Sound, stored};
ghost use Rattle.map.specs.Map.{held};
ghost use Rattle.map.specs.Promises.{RangeMapNew, RangeMapIsEmpty, RangeMapLen, RangeMapRangeAt, RangeMapFirstRangeValue, RangeMapLastRangeValue};
ghost use Rattle.map.specs.Promises.{RangeMapGetKeyValue, RangeMapContainsKey, RangeMapOverlaps, RangeMapOverlapping, RangeMapGaps, RangeMapEq};
ghost use Rattle.map.specs.Promises.{RangeMapCmp, RangeMapInsert, RangeMapRemove, RangeMapClear, RangeMapExtend, RangeMapWellFormed};
ghost use Rattle.map.specs.Promises.{RangeMapGetKeyValueUnchecked, RangeMapGapsUnchecked, RangeMapInsertUnchecked, RangeMapRemoveUnchecked};

use key::{RangeKind, Value};
use outcomes::{Applied, Count, Order, Range, Stored, Stretch, Told};

// The kind of this map's ranges.
const KIND: RangeKind = RangeKind::HalfOpen;

// A map of half-open ranges: the first `count` places hold the ranges, ascending; the others hold 0.
#[repr(C)]
#[derive(Drop)]
pub struct RangeMap {
    pub stored: Stored,
}

// A new map, which holds nothing.
pub fn range_map_new() -> RangeMap
    ensures { RangeMapNew result }
{
    RangeMap {
        stored: Stored::new(),
    }
}

// Whether nothing is held.
pub fn range_map_is_empty(m: &RangeMap) -> Told
    ensures { RangeMapIsEmpty m.now result }
{
    map_abi::is_empty(KIND, &m.stored)
}

// How many ranges are held.
pub fn range_map_len(m: &RangeMap) -> Count
    ensures { RangeMapLen m.now result }
{
    map_abi::len(KIND, &m.stored)
}

// The range and the value at a place.
pub fn range_map_range_at(m: &RangeMap, place: usize) -> Range
    ensures { RangeMapRangeAt m.now place result }
{
    map_abi::range_at(KIND, &m.stored, place)
}

// The first range and its value.
pub fn range_map_first_range_value(m: &RangeMap) -> Range
    ensures { RangeMapFirstRangeValue m.now result }
{
    map_abi::first_range_value(KIND, &m.stored)
}

// The last range and its value.
pub fn range_map_last_range_value(m: &RangeMap) -> Range
    ensures { RangeMapLastRangeValue m.now result }
{
    map_abi::last_range_value(KIND, &m.stored)
}

// The range that holds the key, and its value.
pub fn range_map_get_key_value(m: &RangeMap, key: i64) -> Range
    ensures { RangeMapGetKeyValue m.now key result }
{
    map_abi::get_key_value(KIND, &m.stored, key)
}

// Whether some range holds the key.
pub fn range_map_contains_key(m: &RangeMap, key: i64) -> Told
    ensures { RangeMapContainsKey m.now key result }
{
    map_abi::contains_key(KIND, &m.stored, key)
}

// Whether some range has a key of the query.
pub fn range_map_overlaps(m: &RangeMap, start: i64, end: i64) -> Told
    ensures { RangeMapOverlaps m.now start end result }
{
    map_abi::overlaps(KIND, &m.stored, start, end)
}

// Which consecutive stored part meets the query.
pub fn range_map_overlapping(m: &RangeMap, start: i64, end: i64) -> Stretch
    ensures { RangeMapOverlapping m.now start end result }
{
    map_abi::overlapping(KIND, &m.stored, start, end)
}

// The maximal uncovered ranges inside start..end, into the first places of two lent lists.
pub fn range_map_gaps(
    m: &RangeMap,
    start: i64,
    end: i64,
    out_starts: &mut [i64],
    out_ends: &mut [i64],
) -> Count
    ensures { RangeMapGaps m.now start end out_starts.old out_starts.new out_ends.old out_ends.new result }
{
    map_abi::gaps(KIND, &m.stored, start, end, out_starts, out_ends)
}

// Whether two maps hold the same ranges with the same values.
pub fn range_map_eq(a: &RangeMap, b: &RangeMap) -> Told
    ensures { RangeMapEq a.now b.now result }
{
    map_abi::eq(KIND, &a.stored, &b.stored)
}

// Which of two maps comes first: -1, 0 or 1.
pub fn range_map_cmp(a: &RangeMap, b: &RangeMap) -> Order
    ensures { RangeMapCmp a.now b.now result }
{
    map_abi::cmp(KIND, &a.stored, &b.stored)
}

// Gives the value to each instant of start..end and to no other.
pub fn range_map_insert(m: &mut RangeMap, start: i64, end: i64, value: Value) -> u8
    ensures { RangeMapInsert m.old m.new start end value result }
{
    map_abi::insert(KIND, &mut m.stored, start, end, value)
}

// Uncovers exactly the instants of start..end.
pub fn range_map_remove(m: &mut RangeMap, start: i64, end: i64) -> u8
    ensures { RangeMapRemove m.old m.new start end result }
{
    map_abi::remove(KIND, &mut m.stored, start, end)
}

// Leaves nothing held, whatever the map was.
pub fn range_map_clear(m: &mut RangeMap)
    ensures { RangeMapClear m.old m.new }
{
    map_ops::change::clear(&mut m.stored)
}

// Inserts the entries of three lent lists in order, up to the first refusal.
pub fn range_map_extend(m: &mut RangeMap, starts: &[i64], ends: &[i64], values: &[Value]) -> Applied
    ensures { RangeMapExtend m.old m.new starts.now ends.now values.now result }
{
    map_ops::change::bulk::extend(KIND, &mut m.stored, starts, ends, values)
}

// Whether a map is well formed.
pub fn range_map_well_formed(m: &RangeMap) -> bool
    ensures { RangeMapWellFormed m.now result }
{
    map_abi::well_formed(KIND, &m.stored)
}

// Lookup through the unchecked door: the map must be well formed.
pub fn range_map_get_key_value_unchecked(m: &RangeMap, key: i64) -> Range
    requires { Sound half_open (held m.now) }
    ensures { RangeMapGetKeyValueUnchecked m.now key result }
{
    map_abi::get_key_value_unchecked(KIND, &m.stored, key)
}

// Gaps through the unchecked door: the map must be well formed.
pub fn range_map_gaps_unchecked(
    m: &RangeMap,
    start: i64,
    end: i64,
    out_starts: &mut [i64],
    out_ends: &mut [i64],
) -> Count
    requires { Sound half_open (held m.now) }
    ensures { RangeMapGapsUnchecked m.now start end out_starts.old out_starts.new out_ends.old out_ends.new result }
{
    map_abi::gaps_unchecked(KIND, &m.stored, start, end, out_starts, out_ends)
}

// Insert through the unchecked door: the map must be well formed.
pub fn range_map_insert_unchecked(m: &mut RangeMap, start: i64, end: i64, value: Value) -> u8
    requires { Sound half_open (held m.old) }
    ensures { RangeMapInsertUnchecked m.old m.new start end value result }
{
    map_abi::insert_unchecked(KIND, &mut m.stored, start, end, value)
}

// Remove through the unchecked door: the map must be well formed.
pub fn range_map_remove_unchecked(m: &mut RangeMap, start: i64, end: i64) -> u8
    requires { Sound half_open (held m.old) }
    ensures { RangeMapRemoveUnchecked m.old m.new start end result }
{
    map_abi::remove_unchecked(KIND, &mut m.stored, start, end)
}
