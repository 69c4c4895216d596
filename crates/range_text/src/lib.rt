// Ranges as text, line by line, put into lent bytes from their start on. Each function answers how many bytes it put.
#![tactic(auto)]

ghost use Rattle.std.specs.Prelude.{◌≡◌, ◌+◌, ◌*◌, ◌≤◌, length};
ghost use Rattle.outcomes.specs.Stored.{places};
ghost use Rattle.filling.specs.Filling.{AddsWithin};
ghost use Rattle.range_text.specs.RangeText.{range_text, range_line, result_line, ranges_text, results, result_text};
ghost use Rattle.range_text.specs.InnerRoom.{range_room, range_line_room, result_line_room, ResultsRoom};

use decimal::put_i64;
use filling::fill;
use outcomes::{PLACES, Stored};
use text::{put, put_byte};

// The most bytes that a line takes: two numbers of 20 bytes, two dots, and a value of at most 20 bytes with what stands around it.
pub const LINE_ROOM: usize = 65;

// The most bytes that the ranges of a map take.
pub const RANGES_ROOM: usize = PLACES * LINE_ROOM;

// The most ranges of a query's result over two maps.
pub const RESULTS: usize = 2 * PLACES + 1;

// The most bytes that they take: a line has no value.
pub const RESULTS_ROOM: usize = RESULTS * 43;

// A range, START..END.
fn put_range(out: &mut [u8], at: usize, start: i64, end: i64) -> usize
    requires { at + range_room ≤ length out.old }
    ensures { AddsWithin range_room (range_text start end) out.old at out.new result }
{
    let dots = put_i64(out, at, start);
    let to = put(out, dots, b"..");
    put_i64(out, to, end)
}

// The line of a range of a map.
fn put_line(out: &mut [u8], at: usize, start: i64, end: i64, value: u8) -> usize
    requires { at + range_line_room ≤ length out.old }
    ensures { AddsWithin range_line_room (range_line start end value) out.old at out.new result }
{
    let to = put_range(out, at, start, end);
    let numbers = [u64::from(value)];
    fill(out, to, b">{\n", &numbers)
}

// The line of a range of a result.
fn put_result_line(out: &mut [u8], at: usize, start: i64, end: i64) -> usize
    requires { at + result_line_room ≤ length out.old }
    ensures { AddsWithin result_line_room (result_line start end) out.old at out.new result }
{
    let to = put_range(out, at, start, end);
    put_byte(out, to, b'\n')
}

// The lines of the first `count` places.
fn put_ranges(m: &Stored, out: &mut [u8]) -> usize
    requires { (m.now.count ≤ places) × (range_line_room * m.now.count ≤ length out.old) }
    ensures { AddsWithin (range_line_room * m.now.count) (ranges_text m.now) out.old 0 out.new result }
{
    let mut to = 0;
    for i in 0..m.count {
        to = put_line(out, to, m.starts[i], m.ends[i], m.values[i]);
    }
    to
}

// THE RANGES OF A MAP.
pub fn ranges_text(m: &Stored, out: &mut [u8; RANGES_ROOM]) -> usize
    requires { m.now.count ≤ places }
    ensures { AddsWithin (range_line_room * m.now.count) (ranges_text m.now) out.old 0 out.new result }
{
    put_ranges(m, out)
}

// The lines of the first n places of a result.
fn put_results(n: usize, starts: &[i64], ends: &[i64], out: &mut [u8]) -> usize
    requires { ResultsRoom n starts.now ends.now out.old }
    ensures { AddsWithin (result_line_room * n) (result_text starts.now ends.now n) out.old 0 out.new result }
{
    let mut to = 0;
    for i in 0..n {
        to = put_result_line(out, to, starts[i], ends[i]);
    }
    to
}

// THE FIRST n RANGES of a query's result.
pub fn result_text(
    n: usize,
    starts: &[i64; RESULTS],
    ends: &[i64; RESULTS],
    out: &mut [u8; RESULTS_ROOM],
) -> usize
    requires { n ≤ results }
    ensures { AddsWithin (result_line_room * n) (result_text starts.now ends.now n) out.old 0 out.new result }
{
    put_results(n, starts, ends, out)
}
