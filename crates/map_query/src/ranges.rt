// The ranges of a query of two maps.
ghost use Rattle.map_query.specs.Promises.{RangeMapQuery};

use map::RangeMap;
use outcomes::Count;
use query::ranges::query;

// The true instants of a query in the window start..end, as maximal ranges, into the first places of two lent lists, and how many there are.
// Refusals: 4 a map, 1 the window, 7 the bytes, 3 the lists.
pub fn range_map_query(
    a: &RangeMap,
    b: &RangeMap,
    start: i64,
    end: i64,
    bytes: &[u8],
    out_starts: &mut [i64],
    out_ends: &mut [i64],
) -> Count
    ensures { RangeMapQuery a.now b.now start end bytes.now out_starts.old out_starts.new out_ends.old out_ends.new result }
{
    Count::from(query(
        &a.stored, &b.stored, start, end, bytes, out_starts, out_ends,
    ))
}
