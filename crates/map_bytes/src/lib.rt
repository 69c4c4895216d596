// The byte form of a `RangeMap`: the functions that `hourledger_c` exports. Each lends its map to the writer or to the reader.
#![tactic(auto)]

ghost use Rattle.map_bytes.specs.Promises.{RangeMapWrite, RangeMapRead};

use map::RangeMap;
use outcomes::{Count, number_of};

// Writes the form of the map into the first places of a lent output, and tells its length.
pub fn range_map_write(m: &RangeMap, out: &mut [u8]) -> Count
    ensures { RangeMapWrite m.now out.old out.new result }
{
    byte_io::write::write_number(&m.stored, out)
}

// Reads the map whose form the bytes are. It overwrites the map, so it does not check it.
pub fn range_map_read(m: &mut RangeMap, bytes: &[u8]) -> u8
    ensures { RangeMapRead m.old m.new bytes.now result }
{
    number_of(byte_io::read::read(&mut m.stored, bytes))
}
