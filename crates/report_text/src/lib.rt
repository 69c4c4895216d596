// A day's report as text, put into lent bytes from their start on, and what its lines share with the grid of the day.
#![tactic(auto)]

ghost use Rattle.std.specs.Prelude.{◌≡◌, ◌++◌, ◌+◌, ◌-◌, ◌*◌, ◌≤◌, ◌<◌, length};
ghost use Rattle.key.specs.Rank.{rank};
ghost use Rattle.text.specs.Text.{right_of};
ghost use Rattle.filling.specs.Filling.{AddsWithin};
ghost use Rattle.report_text.specs.Rows.{row_count, row_name, row_of, sum_seconds};
ghost use Rattle.report_text.specs.Times.{pair_text, clock_text, ten_thousandths, hours_text};
ghost use Rattle.report_text.specs.ReportText.{name_column, key_line, seconds_column, clock_column, hours_column, times_text, seconds_line, row_lines, day_lines, report_text};
ghost use Rattle.report_text.specs.InnerRoom.{name_room, clock_room, report_line_room, report_room};

use decimal::{put_digits, put_i64_right, put_u64_right};
use duty::Totals;
use key::Bounds;
use text::{put, put_byte, put_left};

// The rows of a day: the four duties, and unrecorded time.
pub const ROWS: usize = 5;

// The row of unrecorded time, the last.
pub const UNRECORDED: usize = ROWS - 1;

// The columns of a name.
const NAME_ROOM: usize = 14;

// The most bytes that a report takes: nine lines of at most 100 bytes.
pub const REPORT_ROOM: usize = 900;

// A colon and two digits.
fn put_pair(out: &mut [u8], at: usize, n: u64) -> usize
    requires { at + 3 ≤ length out.old }
    ensures { AddsWithin 3 (pair_text n) out.old at out.new result }
{
    let to = put_byte(out, at, b':');
    put_digits(out, to, 2, n)
}

// Seconds by the clock, H:MM:SS. `width` is how many columns the hours have.
pub fn put_clock(out: &mut [u8], at: usize, width: usize, n: u64) -> usize
    requires { (width ≤ 20) × (at + clock_room ≤ length out.old) }
    ensures { AddsWithin clock_room (right_of (width + 6) (clock_text n)) out.old at out.new result }
{
    let minutes = put_u64_right(out, at, width, n / 3600);
    let seconds = put_pair(out, minutes, n / 60 % 60);
    put_pair(out, seconds, n % 60)
}

// The nearest ten-thousandths of an hour of some seconds.
#[tactic(auto, unfolding(crate::specs::Times::ten_thousandths))]
fn ten_thousandths(n: u64) -> u64
    requires { n < 3600 }
    ensures { result ≡ ten_thousandths n }
{
    (50 * n + 9) / 18
}

// Seconds as hours with four decimals, at the right of 7 columns.
fn put_hours(out: &mut [u8], at: usize, n: u64) -> usize
    requires { at + 25 ≤ length out.old }
    ensures { AddsWithin 25 (right_of 7 (hours_text n)) out.old at out.new result }
{
    let point = put_u64_right(out, at, 2, n / 3600);
    let decimals = put_byte(out, point, b'.');
    put_digits(out, decimals, 4, ten_thousandths(n % 3600))
}

// Two spaces, and seconds by the clock.
pub fn put_clock_column(out: &mut [u8], at: usize, n: u64) -> usize
    requires { at + 28 ≤ length out.old }
    ensures { AddsWithin 28 (clock_column n) out.old at out.new result }
{
    let to = put(out, at, b"  ");
    put_clock(out, to, 2, n)
}

// Two spaces, and hours.
fn put_hours_column(out: &mut [u8], at: usize, n: u64) -> usize
    requires { at + 30 ≤ length out.old }
    ensures { AddsWithin 30 (hours_column n) out.old at out.new result }
{
    let hours = put(out, at, b"  ");
    let to = put_hours(out, hours, n);
    put(out, to, b" h\n")
}

// Seconds as a number.
fn put_seconds_column(out: &mut [u8], at: usize, n: u64) -> usize
    requires { at + 22 ≤ length out.old }
    ensures { AddsWithin 22 (seconds_column n) out.old at out.new result }
{
    let to = put_u64_right(out, at, 11, n);
    put(out, to, b" s")
}

// Seconds in all three ways.
fn put_times(out: &mut [u8], at: usize, n: u64) -> usize
    requires { at + 80 ≤ length out.old }
    ensures { AddsWithin 80 (times_text n) out.old at out.new result }
{
    let clock = put_seconds_column(out, at, n);
    let hours = put_clock_column(out, clock, n);
    put_hours_column(out, hours, n)
}

// A name in its columns.
pub fn put_name_column(out: &mut [u8], at: usize, name: &[u8]) -> usize
    requires { (length name.now ≤ name_room) × (at + name_room ≤ length out.old) }
    ensures { AddsWithin name_room (name_column name.now) out.old at out.new result }
{
    put_left(out, at, NAME_ROOM, name)
}

// The name of a row.
#[tactic(auto, unfolding(crate::specs::Rows::row_name))]
pub fn name_of(row: usize) -> &'static [u8]
    requires { row < row_count }
    ensures name { result.now ≡ row_name row }
    ensures short { length result.now ≤ name_room }
{
    match row {
        0 => b"off duty",
        1 => b"sleeper berth",
        2 => b"driving",
        3 => b"on duty",
        _ => b"unrecorded",
    }
}

// The same in lent bytes.
pub fn put_name(out: &mut [u8], at: usize, row: usize) -> usize
    requires { (row < row_count) × (at + name_room ≤ length out.old) }
    ensures { AddsWithin name_room (row_name row) out.old at out.new result }
{
    put(out, at, name_of(row))
}

// The same in its columns.
pub fn put_row_column(out: &mut [u8], at: usize, row: usize) -> usize
    requires { (row < row_count) × (at + name_room ≤ length out.old) }
    ensures { AddsWithin name_room (name_column (row_name row)) out.old at out.new result }
{
    put_name_column(out, at, name_of(row))
}

// The seconds of a row.
#[tactic(auto, unfolding(crate::specs::Rows::row_of))]
pub fn seconds_of(t: Totals, row: usize) -> u32
    requires { row < row_count }
    ensures { result ≡ row_of t row }
{
    let seconds = [
        t.off_duty,
        t.sleeper_berth,
        t.driving,
        t.on_duty,
        t.unrecorded,
    ];
    seconds[row]
}

// All five added up.
#[tactic(auto, unfolding(crate::specs::Rows::sum_seconds))]
pub fn sum_of(t: Totals) -> u64
    ensures { result ≡ sum_seconds t }
{
    u64::from(t.off_duty)
        + u64::from(t.sleeper_berth)
        + u64::from(t.driving)
        + u64::from(t.on_duty)
        + u64::from(t.unrecorded)
}

// The seconds from the start of a range up to its end: none if that lies before. A difference of ranks never wraps.
pub fn seconds_between(range: Bounds) -> u64
    ensures { result ≡ rank range.end - rank range.start }
{
    let from = key::rank_of(range.start);
    let to = key::rank_of(range.end);
    to.saturating_sub(from)
}

// The line of a key.
fn put_key_line(out: &mut [u8], at: usize, name: &[u8], key: i64) -> usize
    requires { (length name.now ≤ name_room) × (at + report_line_room ≤ length out.old) }
    ensures { AddsWithin report_line_room (key_line name.now key) out.old at out.new result }
{
    let number = put_name_column(out, at, name);
    let to = put_i64_right(out, number, 11, key);
    put_byte(out, to, b'\n')
}

// The line of a number of seconds.
fn put_seconds_line(out: &mut [u8], at: usize, name: &[u8], n: u64) -> usize
    requires { (length name.now ≤ name_room) × (at + report_line_room ≤ length out.old) }
    ensures { AddsWithin report_line_room (seconds_line name.now n) out.old at out.new result }
{
    let to = put_name_column(out, at, name);
    put_times(out, to, n)
}

// The lines of the five rows.
fn put_rows(out: &mut [u8], at: usize, t: Totals) -> usize
    requires { at + row_count * report_line_room ≤ length out.old }
    ensures { AddsWithin (row_count * report_line_room) (row_lines t) out.old at out.new result }
{
    let mut to = at;
    for row in 0..ROWS {
        to = put_seconds_line(out, to, name_of(row), u64::from(seconds_of(t, row)));
    }
    to
}

// The lines of a day's start, end and length.
fn put_day(out: &mut [u8], at: usize, day: Bounds) -> usize
    requires { at + 3 * report_line_room ≤ length out.old }
    ensures { AddsWithin (3 * report_line_room) (day_lines day.start day.end) out.old at out.new result }
{
    let second = put_key_line(out, at, b"start", day.start);
    let third = put_key_line(out, second, b"end", day.end);
    put_seconds_line(out, third, b"length", seconds_between(day))
}

// THE REPORT of a day.
pub fn report_text(start: i64, end: i64, t: Totals, out: &mut [u8; REPORT_ROOM]) -> usize
    ensures { AddsWithin report_room (report_text start end t) out.old 0 out.new result }
{
    let rows = put_day(out, 0, Bounds { start, end });
    let sum = put_rows(out, rows, t);
    put_seconds_line(out, sum, b"sum", sum_of(t))
}
