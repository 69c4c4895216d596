// The grid of a day as text, put into lent bytes from their start on. What each quarter of an hour shows is asked of the crate `duty`.
#![tactic(auto)]

ghost use Rattle.std.specs.Prelude.{◌≡◌, ◌+◌, ◌*◌, ◌≤◌, ◌<◌, length};
ghost use Rattle.key.specs.Rank.{rank, keys};
ghost use Rattle.key.specs.Range.{half_open};
ghost use Rattle.outcomes.specs.Stored.{ranges};
ghost use Rattle.outcomes.specs.Lent.{of_ref};
ghost use Rattle.filling.specs.Filling.{series, AddsWithin};
ghost use Rattle.report_text.specs.Rows.{row_count};
ghost use Rattle.graph_text.specs.Grid.{quarters_in, clock_hour, is_marked, mark_of, blank_of, shown, cell, Drawable};
ghost use Rattle.graph_text.specs.GraphText.{hour_column, hours_line, total_column, row_line, sum_line, graph_text};
ghost use Rattle.graph_text.specs.InnerRoom.{most_quarters, most_hours, graph_line_room, graph_room, Quarters, Quarter};

use decimal::put_u64;
use duty::Totals;
use key::Bounds;
use outcomes::StoredRef;
use report_text::{
    ROWS, UNRECORDED, put_clock_column, put_name_column, put_row_column, seconds_between,
    seconds_of, sum_of,
};
use text::{put_byte, put_spaces};

// The seconds of a quarter of an hour.
const QUARTER: usize = 900;

// The most bytes that a grid takes: seven lines of at most 150 bytes.
pub const GRAPH_ROOM: usize = 1050;

// A day as it is drawn: its start, how many quarters of an hour it has, and its totals.
#[derive(Clone, Copy, Debug, PartialEq, Eq)]
pub struct DrawnDay {
    pub start: i64,
    pub quarters: usize,
    pub totals: Totals,
}

// How many quarters of an hour a day has.
pub fn quarters_of(start: i64, end: i64) -> usize
    ensures { result ≡ quarters_in start end }
{
    (seconds_between(Bounds { start, end }) / 900) as usize
}

// The hour that the clock shows in the hour h of a day of n hours.
#[tactic(auto, unfolding(crate::specs::Grid::clock_hour))]
pub fn clock_hour(n: usize, h: usize) -> usize
    requires { (n ≤ most_hours) × (h < n) }
    ensures { (result ≡ clock_hour n h) × (result < 26) }
{
    if h < 2 { h } else { h + 24 - n }
}

// The key at which the quarter q of a day begins.
fn quarter_start(start: i64, q: usize) -> i64
    requires { (q ≤ most_quarters) × (rank start + 900 * q < keys) }
    ensures { rank result ≡ rank start + 900 * q }
{
    start + (QUARTER * q) as i64
}

// Whether a quarter has a second of a row.
pub fn is_marked(m: &StoredRef, start: i64, row: usize, q: usize) -> bool
    requires { Quarter (of_ref m.now) start q × (row < row_count) × (q < most_quarters) }
    ensures { result ≡ is_marked (ranges half_open (of_ref m.now)) start row q }
{
    let quarter = Bounds {
        start: quarter_start(start, q),
        end: quarter_start(start, q + 1),
    };
    match duty::between(m, quarter) {
        Ok(totals) => 0 < seconds_of(totals, row),
        Err(_) => false,
    }
}

// The mark of a row.
#[tactic(auto, unfolding(crate::specs::Grid::mark_of))]
fn mark_of(row: usize) -> u8
    ensures { result ≡ mark_of row }
{
    if row == UNRECORDED { b'?' } else { b'#' }
}

// What a quarter with no mark shows.
#[tactic(auto, unfolding(crate::specs::Grid::blank_of))]
fn blank_of(q: usize) -> u8
    ensures { result ≡ blank_of q }
{
    if q % 4 == 0 { b':' } else { b'.' }
}

// What a quarter shows in a row.
#[tactic(auto, unfolding(crate::specs::Grid::shown))]
fn shown_at(m: &StoredRef, start: i64, row: usize, q: usize) -> u8
    requires { Quarter (of_ref m.now) start q × (row < row_count) × (q < most_quarters) }
    ensures { result ≡ shown (ranges half_open (of_ref m.now)) start row q }
{
    if is_marked(m, start, row, q) {
        mark_of(row)
    } else {
        blank_of(q)
    }
}

// The quarters of a row.
fn put_cells(m: &StoredRef, day: DrawnDay, row: usize, out: &mut [u8], at: usize) -> usize
    requires { Quarters (of_ref m.now) day.start day.quarters × (row < row_count) × (at + day.quarters ≤ length out.old) }
    ensures { AddsWithin day.quarters (series (cell (ranges half_open (of_ref m.now)) day.start row) day.quarters) out.old at out.new result }
{
    let mut to = at;
    for q in 0..day.quarters {
        let byte = shown_at(m, day.start, row, q);
        to = put_byte(out, to, byte);
    }
    to
}

// A total behind the quarters.
fn put_total(out: &mut [u8], at: usize, n: u64) -> usize
    requires { at + 29 ≤ length out.old }
    ensures { AddsWithin 29 (total_column n) out.old at out.new result }
{
    let to = put_clock_column(out, at, n);
    put_byte(out, to, b'\n')
}

// The line of a row.
fn put_row(m: &StoredRef, day: DrawnDay, row: usize, out: &mut [u8], at: usize) -> usize
    requires { Quarters (of_ref m.now) day.start day.quarters × (row < row_count) × (at + graph_line_room ≤ length out.old) }
    ensures { AddsWithin graph_line_room (row_line (ranges half_open (of_ref m.now)) day.start day.quarters day.totals row) out.old at out.new result }
{
    let cells = put_row_column(out, at, row);
    let total = put_cells(m, day, row, out, cells);
    put_total(out, total, u64::from(seconds_of(day.totals, row)))
}

// The lines of the five rows.
fn put_rows(m: &StoredRef, day: DrawnDay, out: &mut [u8], at: usize) -> usize
    requires { Quarters (of_ref m.now) day.start day.quarters × (at + row_count * graph_line_room ≤ length out.old) }
    ensures { AddsWithin (row_count * graph_line_room) (series
        (row_line (ranges half_open (of_ref m.now)) day.start day.quarters day.totals) row_count) out.old at out.new result }
{
    let mut to = at;
    for row in 0..ROWS {
        to = put_row(m, day, row, out, to);
    }
    to
}

// An hour in its columns.
fn put_hour(out: &mut [u8], at: usize, n: usize, h: usize) -> usize
    requires { (n ≤ most_hours) × (h < n) × (at + 20 ≤ length out.old) }
    ensures { AddsWithin 4 (hour_column n h) out.old at out.new result }
{
    let to = put_u64(out, at, clock_hour(n, h) as u64);
    put_spaces(out, to, at + 4 - to)
}

// The hours of a day of n hours.
fn put_hours(out: &mut [u8], at: usize, n: usize) -> usize
    requires { (n ≤ most_hours) × (at + 120 ≤ length out.old) }
    ensures { AddsWithin 100 (series (hour_column n) n) out.old at out.new result }
{
    let mut to = at;
    for h in 0..n {
        to = put_hour(out, to, n, h);
    }
    to
}

// The line of the hours.
fn put_hours_line(out: &mut [u8], at: usize, n: usize) -> usize
    requires { (n ≤ most_hours) × (at + graph_line_room ≤ length out.old) }
    ensures { AddsWithin graph_line_room (hours_line n) out.old at out.new result }
{
    let first = put_name_column(out, at, b"");
    let to = put_hours(out, first, n);
    put_byte(out, to, b'\n')
}

// The line of the sum.
fn put_sum_line(out: &mut [u8], at: usize, day: DrawnDay) -> usize
    requires { (day.quarters ≤ most_quarters) × (at + graph_line_room ≤ length out.old) }
    ensures { AddsWithin graph_line_room (sum_line day.quarters day.totals) out.old at out.new result }
{
    let blank = put_name_column(out, at, b"sum");
    let total = put_spaces(out, blank, day.quarters);
    put_total(out, total, sum_of(day.totals))
}

// THE GRID of a day.
pub fn graph_text(
    m: &StoredRef,
    start: i64,
    end: i64,
    t: Totals,
    out: &mut [u8; GRAPH_ROOM],
) -> usize
    requires { Drawable (of_ref m.now) start end }
    ensures { AddsWithin graph_room (graph_text (ranges half_open (of_ref m.now)) start end t) out.old 0 out.new result }
{
    let quarters = quarters_of(start, end);
    let day = DrawnDay {
        start,
        quarters,
        totals: t,
    };
    let first = put_hours_line(out, 0, quarters / 4);
    let sum = put_rows(m, day, out, first);
    put_sum_line(out, sum, day)
}
