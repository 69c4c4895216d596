// The unchecked door of the ranges of a query.
ghost use Rattle.key.specs.Range.{half_open};
ghost use Rattle.outcomes.specs.Stored.{Sound};
ghost use Rattle.map.specs.Map.{held};
ghost use Rattle.map_query.specs.Promises.{RangeMapQueryUnchecked};

use map::RangeMap;
use outcomes::Count;
use query::ranges::query_unchecked;

// The same ranges, of maps that must be well formed.
pub fn range_map_query_unchecked(
    a: &RangeMap,
    b: &RangeMap,
    start: i64,
    end: i64,
    bytes: &[u8],
    out_starts: &mut [i64],
    out_ends: &mut [i64],
) -> Count
    requires { Sound half_open (held a.now) × Sound half_open (held b.now) }
    ensures { RangeMapQueryUnchecked a.now b.now start end bytes.now out_starts.old out_starts.new out_ends.old
        out_ends.new result }
{
    Count::from(query_unchecked(
        &a.stored.lent(),
        &b.stored.lent(),
        start,
        end,
        bytes,
        out_starts,
        out_ends,
    ))
}
