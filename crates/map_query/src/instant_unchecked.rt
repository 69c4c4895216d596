// The unchecked door of one instant of a query.
ghost use Rattle.key.specs.Range.{half_open};
ghost use Rattle.outcomes.specs.Stored.{Sound};
ghost use Rattle.map.specs.Map.{held};
ghost use Rattle.map_query.specs.Promises.{RangeMapQueryAtUnchecked};

use map::RangeMap;
use outcomes::Told;
use query::instant::query_at_unchecked;

// The same of one instant, of maps that must be well formed.
pub fn range_map_query_at_unchecked(
    a: &RangeMap,
    b: &RangeMap,
    start: i64,
    end: i64,
    bytes: &[u8],
    key: i64,
) -> Told
    requires { Sound half_open (held a.now) × Sound half_open (held b.now) }
    ensures { RangeMapQueryAtUnchecked a.now b.now start end bytes.now key result }
{
    Told::from(query_at_unchecked(&a.stored.lent(), &b.stored.lent(), start, end, bytes, key))
}
