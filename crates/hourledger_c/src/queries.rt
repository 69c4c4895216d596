// Queries of two half-open maps.
ghost use Rattle.map_query.specs.Promises.{RangeMapQueryAt, RangeMapQueryAtUnchecked, RangeMapQuery, RangeMapQueryUnchecked};
ghost use Rattle.outcomes.specs.Stored.{Sound};
ghost use Rattle.key.specs.Range.{half_open};
ghost use Rattle.map.specs.Map.{held};

use map::RangeMap;
use outcomes::{Count, Told};

// Whether one instant is in the result of a query in the window start..end. Outside the window it is not.
// Refusals: 4 a map, 1 the window, 7 the bytes.
#[unsafe(no_mangle)]
pub extern "C" fn range_map_query_at(
    a: &RangeMap,
    b: &RangeMap,
    start: i64,
    end: i64,
    bytes: &[u8],
    key: i64,
) -> Told
    ensures { RangeMapQueryAt a.now b.now start end bytes.now key result }
{
    map_query::instant::range_map_query_at(a, b, start, end, bytes, key)
}

// The same of one instant, of maps that must be well formed.
#[unsafe(no_mangle)]
pub extern "C" fn range_map_query_at_unchecked(
    a: &RangeMap,
    b: &RangeMap,
    start: i64,
    end: i64,
    bytes: &[u8],
    key: i64,
) -> Told
    requires { Sound half_open (held a.now) × Sound half_open (held b.now) }
    ensures { RangeMapQueryAtUnchecked a.now b.now start end bytes.now key result }
{
    map_query::instant_unchecked::range_map_query_at_unchecked(a, b, start, end, bytes, key)
}

// The true instants of a query in the window start..end, as maximal ranges, into the first places of two lent lists, and how many there are.
// Refusals: 4 a map, 1 the window, 7 the bytes, 3 the lists.
#[unsafe(no_mangle)]
pub extern "C" fn range_map_query(
    a: &RangeMap,
    b: &RangeMap,
    start: i64,
    end: i64,
    bytes: &[u8],
    out_starts: &mut [i64],
    out_ends: &mut [i64],
) -> Count
    ensures { RangeMapQuery a.now b.now start end bytes.now out_starts.old out_starts.new out_ends.old out_ends.new result }
{
    map_query::ranges::range_map_query(a, b, start, end, bytes, out_starts, out_ends)
}

// The same ranges, of maps that must be well formed.
#[unsafe(no_mangle)]
pub extern "C" fn range_map_query_unchecked(
    a: &RangeMap,
    b: &RangeMap,
    start: i64,
    end: i64,
    bytes: &[u8],
    out_starts: &mut [i64],
    out_ends: &mut [i64],
) -> Count
    requires { Sound half_open (held a.now) × Sound half_open (held b.now) }
    ensures { RangeMapQueryUnchecked a.now b.now start end bytes.now out_starts.old out_starts.new out_ends.old
        out_ends.new result }
{
    map_query::ranges_unchecked::range_map_query_unchecked(
        a, b, start, end, bytes, out_starts, out_ends,
    )
}
