// Module 3: the inclusive map.
ghost use Rattle.inclusive_map.specs.Promises.{RangeInclusiveMapNew, RangeInclusiveMapIsEmpty, RangeInclusiveMapLen, RangeInclusiveMapRangeAt, RangeInclusiveMapFirstRangeValue, RangeInclusiveMapLastRangeValue, RangeInclusiveMapGetKeyValue, RangeInclusiveMapContainsKey, RangeInclusiveMapOverlaps, RangeInclusiveMapOverlapping, RangeInclusiveMapGaps, RangeInclusiveMapEq, RangeInclusiveMapCmp, RangeInclusiveMapInsert, RangeInclusiveMapRemove, RangeInclusiveMapClear, RangeInclusiveMapExtend, RangeInclusiveMapWellFormed, RangeInclusiveMapGetKeyValueUnchecked, RangeInclusiveMapGapsUnchecked, RangeInclusiveMapInsertUnchecked, RangeInclusiveMapRemoveUnchecked};
ghost use Rattle.outcomes.specs.Stored.{Sound};
ghost use Rattle.key.specs.Range.{inclusive};
ghost use Rattle.inclusive_map.specs.Map.{held};

use inclusive_map::RangeInclusiveMap;
use key::Value;
use outcomes::{Applied, Count, Order, Range, Stretch, Told};

// A new map, which holds nothing.
#[unsafe(no_mangle)]
pub extern "C" fn range_inclusive_map_new() -> RangeInclusiveMap
    ensures { RangeInclusiveMapNew result }
{
    inclusive_map::range_inclusive_map_new()
}

// Whether nothing is held.
#[unsafe(no_mangle)]
pub extern "C" fn range_inclusive_map_is_empty(m: &RangeInclusiveMap) -> Told
    ensures { RangeInclusiveMapIsEmpty m.now result }
{
    inclusive_map::range_inclusive_map_is_empty(m)
}

// How many ranges are held.
#[unsafe(no_mangle)]
pub extern "C" fn range_inclusive_map_len(m: &RangeInclusiveMap) -> Count
    ensures { RangeInclusiveMapLen m.now result }
{
    inclusive_map::range_inclusive_map_len(m)
}

// The range and the value at a place.
#[unsafe(no_mangle)]
pub extern "C" fn range_inclusive_map_range_at(m: &RangeInclusiveMap, place: usize) -> Range
    ensures { RangeInclusiveMapRangeAt m.now place result }
{
    inclusive_map::range_inclusive_map_range_at(m, place)
}

// The first range and its value.
#[unsafe(no_mangle)]
pub extern "C" fn range_inclusive_map_first_range_value(m: &RangeInclusiveMap) -> Range
    ensures { RangeInclusiveMapFirstRangeValue m.now result }
{
    inclusive_map::range_inclusive_map_first_range_value(m)
}

// The last range and its value.
#[unsafe(no_mangle)]
pub extern "C" fn range_inclusive_map_last_range_value(m: &RangeInclusiveMap) -> Range
    ensures { RangeInclusiveMapLastRangeValue m.now result }
{
    inclusive_map::range_inclusive_map_last_range_value(m)
}

// The range that holds the key, and its value.
#[unsafe(no_mangle)]
pub extern "C" fn range_inclusive_map_get_key_value(m: &RangeInclusiveMap, key: i64) -> Range
    ensures { RangeInclusiveMapGetKeyValue m.now key result }
{
    inclusive_map::range_inclusive_map_get_key_value(m, key)
}

// Whether some range holds the key.
#[unsafe(no_mangle)]
pub extern "C" fn range_inclusive_map_contains_key(m: &RangeInclusiveMap, key: i64) -> Told
    ensures { RangeInclusiveMapContainsKey m.now key result }
{
    inclusive_map::range_inclusive_map_contains_key(m, key)
}

// Whether some range has a key of the query.
#[unsafe(no_mangle)]
pub extern "C" fn range_inclusive_map_overlaps(m: &RangeInclusiveMap, start: i64, end: i64) -> Told
    ensures { RangeInclusiveMapOverlaps m.now start end result }
{
    inclusive_map::range_inclusive_map_overlaps(m, start, end)
}

// Which consecutive stored part meets the query.
#[unsafe(no_mangle)]
pub extern "C" fn range_inclusive_map_overlapping(
    m: &RangeInclusiveMap,
    start: i64,
    end: i64,
) -> Stretch
    ensures { RangeInclusiveMapOverlapping m.now start end result }
{
    inclusive_map::range_inclusive_map_overlapping(m, start, end)
}

// The maximal uncovered ranges inside start..=end, into the first places of two lent lists.
#[unsafe(no_mangle)]
pub extern "C" fn range_inclusive_map_gaps(
    m: &RangeInclusiveMap,
    start: i64,
    end: i64,
    out_starts: &mut [i64],
    out_ends: &mut [i64],
) -> Count
    ensures { RangeInclusiveMapGaps m.now start end out_starts.old out_starts.new out_ends.old out_ends.new result }
{
    inclusive_map::range_inclusive_map_gaps(m, start, end, out_starts, out_ends)
}

// Whether two maps hold the same ranges with the same values.
#[unsafe(no_mangle)]
pub extern "C" fn range_inclusive_map_eq(a: &RangeInclusiveMap, b: &RangeInclusiveMap) -> Told
    ensures { RangeInclusiveMapEq a.now b.now result }
{
    inclusive_map::range_inclusive_map_eq(a, b)
}

// Which of two maps comes first: -1, 0 or 1.
#[unsafe(no_mangle)]
pub extern "C" fn range_inclusive_map_cmp(a: &RangeInclusiveMap, b: &RangeInclusiveMap) -> Order
    ensures { RangeInclusiveMapCmp a.now b.now result }
{
    inclusive_map::range_inclusive_map_cmp(a, b)
}

// Gives the value to each instant of start..=end and to no other.
#[unsafe(no_mangle)]
pub extern "C" fn range_inclusive_map_insert(
    m: &mut RangeInclusiveMap,
    start: i64,
    end: i64,
    value: Value,
) -> u8
    ensures { RangeInclusiveMapInsert m.old m.new start end value result }
{
    inclusive_map::range_inclusive_map_insert(m, start, end, value)
}

// Uncovers exactly the instants of start..=end.
#[unsafe(no_mangle)]
pub extern "C" fn range_inclusive_map_remove(m: &mut RangeInclusiveMap, start: i64, end: i64) -> u8
    ensures { RangeInclusiveMapRemove m.old m.new start end result }
{
    inclusive_map::range_inclusive_map_remove(m, start, end)
}

// Leaves nothing held, whatever the map was.
#[unsafe(no_mangle)]
pub extern "C" fn range_inclusive_map_clear(m: &mut RangeInclusiveMap)
    ensures { RangeInclusiveMapClear m.old m.new }
{
    inclusive_map::range_inclusive_map_clear(m);
}

// Inserts the entries of three lent lists in order, up to the first refusal.
#[unsafe(no_mangle)]
pub extern "C" fn range_inclusive_map_extend(
    m: &mut RangeInclusiveMap,
    starts: &[i64],
    ends: &[i64],
    values: &[Value],
) -> Applied
    ensures { RangeInclusiveMapExtend m.old m.new starts.now ends.now values.now result }
{
    inclusive_map::range_inclusive_map_extend(m, starts, ends, values)
}

// Whether a map is well formed.
#[unsafe(no_mangle)]
pub extern "C" fn range_inclusive_map_well_formed(m: &RangeInclusiveMap) -> bool
    ensures { RangeInclusiveMapWellFormed m.now result }
{
    inclusive_map::range_inclusive_map_well_formed(m)
}

// Lookup through the unchecked door: the map must be well formed.
#[unsafe(no_mangle)]
pub extern "C" fn range_inclusive_map_get_key_value_unchecked(
    m: &RangeInclusiveMap,
    key: i64,
) -> Range
    requires { Sound inclusive (held m.now) }
    ensures { RangeInclusiveMapGetKeyValueUnchecked m.now key result }
{
    inclusive_map::range_inclusive_map_get_key_value_unchecked(m, key)
}

// Gaps through the unchecked door: the map must be well formed.
#[unsafe(no_mangle)]
pub extern "C" fn range_inclusive_map_gaps_unchecked(
    m: &RangeInclusiveMap,
    start: i64,
    end: i64,
    out_starts: &mut [i64],
    out_ends: &mut [i64],
) -> Count
    requires { Sound inclusive (held m.now) }
    ensures { RangeInclusiveMapGapsUnchecked m.now start end out_starts.old out_starts.new out_ends.old out_ends.new result }
{
    inclusive_map::range_inclusive_map_gaps_unchecked(m, start, end, out_starts, out_ends)
}

// Insert through the unchecked door: the map must be well formed.
#[unsafe(no_mangle)]
pub extern "C" fn range_inclusive_map_insert_unchecked(
    m: &mut RangeInclusiveMap,
    start: i64,
    end: i64,
    value: Value,
) -> u8
    requires { Sound inclusive (held m.old) }
    ensures { RangeInclusiveMapInsertUnchecked m.old m.new start end value result }
{
    inclusive_map::range_inclusive_map_insert_unchecked(m, start, end, value)
}

// Remove through the unchecked door: the map must be well formed.
#[unsafe(no_mangle)]
pub extern "C" fn range_inclusive_map_remove_unchecked(
    m: &mut RangeInclusiveMap,
    start: i64,
    end: i64,
) -> u8
    requires { Sound inclusive (held m.old) }
    ensures { RangeInclusiveMapRemoveUnchecked m.old m.new start end result }
{
    inclusive_map::range_inclusive_map_remove_unchecked(m, start, end)
}
