// Module 2: the half-open map.
ghost use Rattle.map.specs.Promises.{RangeMapNew, RangeMapIsEmpty, RangeMapLen, RangeMapRangeAt, RangeMapFirstRangeValue, RangeMapLastRangeValue, RangeMapGetKeyValue, RangeMapContainsKey, RangeMapOverlaps, RangeMapOverlapping, RangeMapGaps, RangeMapEq, RangeMapCmp, RangeMapInsert, RangeMapRemove, RangeMapClear, RangeMapExtend, RangeMapWellFormed, RangeMapGetKeyValueUnchecked, RangeMapGapsUnchecked, RangeMapInsertUnchecked, RangeMapRemoveUnchecked};
ghost use Rattle.outcomes.specs.Stored.{Sound};
ghost use Rattle.key.specs.Range.{half_open};
ghost use Rattle.map.specs.Map.{held};

use key::Value;
use map::RangeMap;
use outcomes::{Applied, Count, Order, Range, Stretch, Told};

// A new map, which holds nothing.
#[unsafe(no_mangle)]
pub extern "C" fn range_map_new() -> RangeMap
    ensures { RangeMapNew result }
{
    map::range_map_new()
}

// Whether nothing is held.
#[unsafe(no_mangle)]
pub extern "C" fn range_map_is_empty(m: &RangeMap) -> Told
    ensures { RangeMapIsEmpty m.now result }
{
    map::range_map_is_empty(m)
}

// How many ranges are held.
#[unsafe(no_mangle)]
pub extern "C" fn range_map_len(m: &RangeMap) -> Count
    ensures { RangeMapLen m.now result }
{
    map::range_map_len(m)
}

// The range and the value at a place.
#[unsafe(no_mangle)]
pub extern "C" fn range_map_range_at(m: &RangeMap, place: usize) -> Range
    ensures { RangeMapRangeAt m.now place result }
{
    map::range_map_range_at(m, place)
}

// The first range and its value.
#[unsafe(no_mangle)]
pub extern "C" fn range_map_first_range_value(m: &RangeMap) -> Range
    ensures { RangeMapFirstRangeValue m.now result }
{
    map::range_map_first_range_value(m)
}

// The last range and its value.
#[unsafe(no_mangle)]
pub extern "C" fn range_map_last_range_value(m: &RangeMap) -> Range
    ensures { RangeMapLastRangeValue m.now result }
{
    map::range_map_last_range_value(m)
}

// The range that holds the key, and its value.
#[unsafe(no_mangle)]
pub extern "C" fn range_map_get_key_value(m: &RangeMap, key: i64) -> Range
    ensures { RangeMapGetKeyValue m.now key result }
{
    map::range_map_get_key_value(m, key)
}

// Whether some range holds the key.
#[unsafe(no_mangle)]
pub extern "C" fn range_map_contains_key(m: &RangeMap, key: i64) -> Told
    ensures { RangeMapContainsKey m.now key result }
{
    map::range_map_contains_key(m, key)
}

// Whether some range has a key of the query.
#[unsafe(no_mangle)]
pub extern "C" fn range_map_overlaps(m: &RangeMap, start: i64, end: i64) -> Told
    ensures { RangeMapOverlaps m.now start end result }
{
    map::range_map_overlaps(m, start, end)
}

// Which consecutive stored part meets the query.
#[unsafe(no_mangle)]
pub extern "C" fn range_map_overlapping(m: &RangeMap, start: i64, end: i64) -> Stretch
    ensures { RangeMapOverlapping m.now start end result }
{
    map::range_map_overlapping(m, start, end)
}

// The maximal uncovered ranges inside start..end, into the first places of two lent lists.
#[unsafe(no_mangle)]
pub extern "C" fn range_map_gaps(
    m: &RangeMap,
    start: i64,
    end: i64,
    out_starts: &mut [i64],
    out_ends: &mut [i64],
) -> Count
    ensures { RangeMapGaps m.now start end out_starts.old out_starts.new out_ends.old out_ends.new result }
{
    map::range_map_gaps(m, start, end, out_starts, out_ends)
}

// Whether two maps hold the same ranges with the same values.
#[unsafe(no_mangle)]
pub extern "C" fn range_map_eq(a: &RangeMap, b: &RangeMap) -> Told
    ensures { RangeMapEq a.now b.now result }
{
    map::range_map_eq(a, b)
}

// Which of two maps comes first: -1, 0 or 1.
#[unsafe(no_mangle)]
pub extern "C" fn range_map_cmp(a: &RangeMap, b: &RangeMap) -> Order
    ensures { RangeMapCmp a.now b.now result }
{
    map::range_map_cmp(a, b)
}

// Gives the value to each instant of start..end and to no other.
#[unsafe(no_mangle)]
pub extern "C" fn range_map_insert(m: &mut RangeMap, start: i64, end: i64, value: Value) -> u8
    ensures { RangeMapInsert m.old m.new start end value result }
{
    map::range_map_insert(m, start, end, value)
}

// Uncovers exactly the instants of start..end.
#[unsafe(no_mangle)]
pub extern "C" fn range_map_remove(m: &mut RangeMap, start: i64, end: i64) -> u8
    ensures { RangeMapRemove m.old m.new start end result }
{
    map::range_map_remove(m, start, end)
}

// Leaves nothing held, whatever the map was.
#[unsafe(no_mangle)]
pub extern "C" fn range_map_clear(m: &mut RangeMap)
    ensures { RangeMapClear m.old m.new }
{
    map::range_map_clear(m);
}

// Inserts the entries of three lent lists in order, up to the first refusal.
#[unsafe(no_mangle)]
pub extern "C" fn range_map_extend(
    m: &mut RangeMap,
    starts: &[i64],
    ends: &[i64],
    values: &[Value],
) -> Applied
    ensures { RangeMapExtend m.old m.new starts.now ends.now values.now result }
{
    map::range_map_extend(m, starts, ends, values)
}

// Whether a map is well formed.
#[unsafe(no_mangle)]
pub extern "C" fn range_map_well_formed(m: &RangeMap) -> bool
    ensures { RangeMapWellFormed m.now result }
{
    map::range_map_well_formed(m)
}

// Lookup through the unchecked door: the map must be well formed.
#[unsafe(no_mangle)]
pub extern "C" fn range_map_get_key_value_unchecked(m: &RangeMap, key: i64) -> Range
    requires { Sound half_open (held m.now) }
    ensures { RangeMapGetKeyValueUnchecked m.now key result }
{
    map::range_map_get_key_value_unchecked(m, key)
}

// Gaps through the unchecked door: the map must be well formed.
#[unsafe(no_mangle)]
pub extern "C" fn range_map_gaps_unchecked(
    m: &RangeMap,
    start: i64,
    end: i64,
    out_starts: &mut [i64],
    out_ends: &mut [i64],
) -> Count
    requires { Sound half_open (held m.now) }
    ensures { RangeMapGapsUnchecked m.now start end out_starts.old out_starts.new out_ends.old out_ends.new result }
{
    map::range_map_gaps_unchecked(m, start, end, out_starts, out_ends)
}

// Insert through the unchecked door: the map must be well formed.
#[unsafe(no_mangle)]
pub extern "C" fn range_map_insert_unchecked(
    m: &mut RangeMap,
    start: i64,
    end: i64,
    value: Value,
) -> u8
    requires { Sound half_open (held m.old) }
    ensures { RangeMapInsertUnchecked m.old m.new start end value result }
{
    map::range_map_insert_unchecked(m, start, end, value)
}

// Remove through the unchecked door: the map must be well formed.
#[unsafe(no_mangle)]
pub extern "C" fn range_map_remove_unchecked(m: &mut RangeMap, start: i64, end: i64) -> u8
    requires { Sound half_open (held m.old) }
    ensures { RangeMapRemoveUnchecked m.old m.new start end result }
{
    map::range_map_remove_unchecked(m, start, end)
}
