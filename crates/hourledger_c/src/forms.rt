// The byte form of a half-open map.
ghost use Rattle.map_bytes.specs.Promises.{RangeMapWrite, RangeMapRead};

use map::RangeMap;
use outcomes::Count;

// Writes the form of the map into the first places of a lent output, and tells its length.
#[unsafe(no_mangle)]
pub extern "C" fn range_map_write(m: &RangeMap, out: &mut [u8]) -> Count
    ensures { RangeMapWrite m.now out.old out.new result }
{
    map_bytes::range_map_write(m, out)
}

// Reads the map whose form the bytes are. It overwrites the map, so it does not check it.
#[unsafe(no_mangle)]
pub extern "C" fn range_map_read(m: &mut RangeMap, bytes: &[u8]) -> u8
    ensures { RangeMapRead m.old m.new bytes.now result }
{
    map_bytes::range_map_read(m, bytes)
}
