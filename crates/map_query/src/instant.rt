// One instant of a query of two maps.
ghost use Rattle.map_query.specs.Promises.{RangeMapQueryAt};

use map::RangeMap;
use outcomes::Told;
use query::instant::query_at;

// Whether one instant is in the result of a query in the window start..end. Outside the window it is not.
// Refusals: 4 a map, 1 the window, 7 the bytes.
pub fn range_map_query_at(
    a: &RangeMap,
    b: &RangeMap,
    start: i64,
    end: i64,
    bytes: &[u8],
    key: i64,
) -> Told
    ensures { RangeMapQueryAt a.now b.now start end bytes.now key result }
{
    Told::from(query_at(&a.stored, &b.stored, start, end, bytes, key))
}
