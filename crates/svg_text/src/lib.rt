// The grid of a day as a picture, put into lent bytes from their start on. What each quarter of an hour shows is asked as the grid asks it.
#![tactic(auto)]

ghost use Rattle.std.specs.Prelude.{◌≡◌, ◌+◌, ◌*◌, ◌≤◌, ◌<◌, length};
ghost use Rattle.key.specs.Range.{half_open};
ghost use Rattle.outcomes.specs.Stored.{ranges};
ghost use Rattle.outcomes.specs.Lent.{of_ref};
ghost use Rattle.filling.specs.Filling.{series, AddsWithin};
ghost use Rattle.report_text.specs.Rows.{row_count};
ghost use Rattle.graph_text.specs.Grid.{Drawable};
ghost use Rattle.graph_text.specs.InnerRoom.{most_quarters, most_hours, Quarters, Quarter};
ghost use Rattle.svg_text.specs.SvgText.{head_svg, hour_rule, hour_rules, row_rule, row_rules, hour_svg, name_svg, total_svg, ink_of, mark_at, mark_svg, ink_svg, marks_svg, row_svg, frame_svg, foot_svg, svg_text};
ghost use Rattle.svg_text.specs.InnerRoom.{text_room, mark_room, marks_room, row_room, frame_room, foot_room, svg_room};

use duty::Totals;
use filling::fill;
use graph_text::{DrawnDay, clock_hour, is_marked, quarters_of};
use outcomes::StoredRef;
use report_text::{ROWS, UNRECORDED, name_of, put_clock, seconds_of, sum_of};
use text::put;

// The most bytes that a picture takes.
pub const SVG_ROOM: usize = 29400;

// The head and the white ground, where w is the width of all quarters.
fn put_head(out: &mut [u8], at: usize, w: u64) -> usize
    requires { (w ≤ 800) × (at + 200 ≤ length out.old) }
    ensures { AddsWithin 200 (head_svg w) out.old at out.new result }
{
    let numbers = [w + 200];
    let ground = fill(
        out,
        at,
        b"<svg xmlns=\"http://www.w3.org/2000/svg\" width=\"{\" height=\"180\" font-family=\"monospace\" font-size=\"12\">\n",
        &numbers,
    );
    put(
        out,
        ground,
        b"<rect width=\"100%\" height=\"100%\" fill=\"white\"/>\n",
    )
}

// The line before the hour i.
fn put_hour_rule(out: &mut [u8], at: usize, i: usize) -> usize
    requires { (i ≤ most_hours) × (at + 29 ≤ length out.old) }
    ensures { AddsWithin 29 (hour_rule i) out.old at out.new result }
{
    let numbers = [112 + 32 * i as u64];
    fill(out, at, b"M{ 32v120", &numbers)
}

// The first n of these lines.
fn put_hour_rules(out: &mut [u8], at: usize, n: usize) -> usize
    requires { (n ≤ most_hours + 1) × (at + 754 ≤ length out.old) }
    ensures { AddsWithin 754 (series hour_rule n) out.old at out.new result }
{
    let mut to = at;
    for i in 0..n {
        to = put_hour_rule(out, to, i);
    }
    to
}

// The lines between n hours.
fn put_hour_path(out: &mut [u8], at: usize, n: usize) -> usize
    requires { (n ≤ most_hours) × (at + 800 ≤ length out.old) }
    ensures { AddsWithin 800 (hour_rules n) out.old at out.new result }
{
    let rules = put(out, at, b"<path stroke=\"silver\" d=\"");
    let to = put_hour_rules(out, rules, n + 1);
    put(out, to, b"\"/>\n")
}

// The line before the row j.
fn put_row_rule(out: &mut [u8], at: usize, w: u64, j: usize) -> usize
    requires { (j ≤ row_count) × (at + 48 ≤ length out.old) }
    ensures { AddsWithin 48 (row_rule w j) out.old at out.new result }
{
    let numbers = [32 + 24 * j as u64, w];
    fill(out, at, b"M112 {h{", &numbers)
}

// These lines.
fn put_row_rules(out: &mut [u8], at: usize, w: u64) -> usize
    requires { at + 288 ≤ length out.old }
    ensures { AddsWithin 288 (series (row_rule w) (row_count + 1)) out.old at out.new result }
{
    let mut to = at;
    for j in 0..=ROWS {
        to = put_row_rule(out, to, w, j);
    }
    to
}

// The lines between the rows.
fn put_row_path(out: &mut [u8], at: usize, w: u64) -> usize
    requires { at + 320 ≤ length out.old }
    ensures { AddsWithin 320 (row_rules w) out.old at out.new result }
{
    let rules = put(out, at, b"<path stroke=\"gray\" d=\"");
    let to = put_row_rules(out, rules, w);
    put(out, to, b"\"/>\n")
}

// The hour h of n, as the clock shows it.
fn put_hour_text(out: &mut [u8], at: usize, n: usize, h: usize) -> usize
    requires { (n ≤ most_hours) × (h < n) × (at + 70 ≤ length out.old) }
    ensures { AddsWithin 70 (hour_svg n h) out.old at out.new result }
{
    let hour = clock_hour(n, h) as u64;
    let numbers = [114 + 32 * h as u64, hour];
    fill(out, at, b"<text x=\"{\" y=\"26\">{</text>\n", &numbers)
}

// The hours of a day of n hours.
fn put_hour_texts(out: &mut [u8], at: usize, n: usize) -> usize
    requires { (n ≤ most_hours) × (at + 1750 ≤ length out.old) }
    ensures { AddsWithin 1750 (series (hour_svg n) n) out.old at out.new result }
{
    let mut to = at;
    for h in 0..n {
        to = put_hour_text(out, to, n, h);
    }
    to
}

// What stands before the rows of n quarters.
fn put_frame(out: &mut [u8], at: usize, n: usize) -> usize
    requires { (n ≤ most_quarters) × (at + frame_room ≤ length out.old) }
    ensures { AddsWithin frame_room (frame_svg n) out.old at out.new result }
{
    let w = 8 * n as u64;
    let hours = put_head(out, at, w);
    let lines = put_hour_path(out, hours, n / 4);
    let texts = put_row_path(out, lines, w);
    put_hour_texts(out, texts, n / 4)
}

// A name at a height.
fn put_label(out: &mut [u8], at: usize, y: u64, name: &[u8]) -> usize
    requires { (length name.now ≤ 14) × (at + 60 ≤ length out.old) }
    ensures { AddsWithin 60 (name_svg y name.now) out.old at out.new result }
{
    let numbers = [y];
    let word = fill(out, at, b"<text x=\"6\" y=\"{\">", &numbers);
    let to = put(out, word, name);
    put(out, to, b"</text>\n")
}

// A total behind the quarters, which are w wide, at a height.
fn put_total(out: &mut [u8], at: usize, w: u64, y: u64, n: u64) -> usize
    requires { (w ≤ 800) × (at + text_room ≤ length out.old) }
    ensures { AddsWithin text_room (total_svg w y n) out.old at out.new result }
{
    let numbers = [w + 192, y];
    let clock = fill(
        out,
        at,
        b"<text x=\"{\" y=\"{\" text-anchor=\"end\">",
        &numbers,
    );
    let to = put_clock(out, clock, 0, n);
    put(out, to, b"</text>\n")
}

// The colour of a row's marks.
#[tactic(auto, unfolding(crate::specs::SvgText::ink_of))]
fn put_ink(out: &mut [u8], at: usize, row: usize) -> usize
    requires { at + 4 ≤ length out.old }
    ensures { AddsWithin 4 (ink_of row) out.old at out.new result }
{
    if row == UNRECORDED {
        put(out, at, b"red")
    } else {
        put(out, at, b"navy")
    }
}

// What stands before a row's marks.
fn put_ink_head(out: &mut [u8], at: usize, row: usize) -> usize
    requires { at + 40 ≤ length out.old }
    ensures { AddsWithin 40 (ink_svg row) out.old at out.new result }
{
    let ink = put(out, at, b"<path stroke=\"");
    let to = put_ink(out, ink, row);
    put(out, to, b"\" stroke-width=\"4\" d=\"")
}

// One mark of a row.
fn put_one(out: &mut [u8], at: usize, row: usize, q: usize) -> usize
    requires { (row < row_count) × (q < most_quarters) × (at + mark_room ≤ length out.old) }
    ensures { AddsWithin mark_room (mark_at row q) out.old at out.new result }
{
    let numbers = [112 + 8 * q as u64, 44 + 24 * row as u64];
    fill(out, at, b"M{ {h8", &numbers)
}

// A quarter of a row, if it is marked.
#[tactic(auto, unfolding(crate::specs::SvgText::mark_svg))]
fn put_mark(m: &StoredRef, start: i64, row: usize, q: usize, out: &mut [u8], at: usize) -> usize
    requires { Quarter (of_ref m.now) start q × (row < row_count) × (q < most_quarters)
        × (at + mark_room ≤ length out.old) }
    ensures { AddsWithin mark_room (mark_svg (ranges half_open (of_ref m.now)) start row q) out.old at out.new result }
{
    if is_marked(m, start, row, q) {
        put_one(out, at, row, q)
    } else {
        at
    }
}

// The marks of a row.
fn put_marks(m: &StoredRef, day: DrawnDay, row: usize, out: &mut [u8], at: usize) -> usize
    requires { Quarters (of_ref m.now) day.start day.quarters × (row < row_count) × (at + marks_room ≤ length out.old) }
    ensures { AddsWithin marks_room (series (mark_svg (ranges half_open (of_ref m.now)) day.start row) day.quarters) out.old at
        out.new result }
{
    let mut to = at;
    for q in 0..day.quarters {
        to = put_mark(m, day.start, row, q, out, to);
    }
    to
}

// The same as a path.
fn put_marks_path(m: &StoredRef, day: DrawnDay, row: usize, out: &mut [u8], at: usize) -> usize
    requires { Quarters (of_ref m.now) day.start day.quarters × (row < row_count) × (at + 4650 ≤ length out.old) }
    ensures { AddsWithin 4650 (marks_svg (ranges half_open (of_ref m.now)) day.start day.quarters row) out.old at out.new result }
{
    let marks = put_ink_head(out, at, row);
    let to = put_marks(m, day, row, out, marks);
    put(out, to, b"\"/>\n")
}

// A row: its name, its marks, its total.
fn put_row(m: &StoredRef, day: DrawnDay, row: usize, out: &mut [u8], at: usize) -> usize
    requires { Quarters (of_ref m.now) day.start day.quarters × (row < row_count) × (at + row_room ≤ length out.old) }
    ensures { AddsWithin row_room (row_svg (ranges half_open (of_ref m.now)) day.start day.quarters day.totals row) out.old at
        out.new result }
{
    let height = 49 + 24 * row as u64;
    let path = put_label(out, at, height, name_of(row));
    let to = put_marks_path(m, day, row, out, path);
    let total = u64::from(seconds_of(day.totals, row));
    put_total(out, to, 8 * day.quarters as u64, height, total)
}

// The five rows.
fn put_rows(m: &StoredRef, day: DrawnDay, out: &mut [u8], at: usize) -> usize
    requires { Quarters (of_ref m.now) day.start day.quarters × (at + row_count * row_room ≤ length out.old) }
    ensures { AddsWithin (row_count * row_room) (series
        (row_svg (ranges half_open (of_ref m.now)) day.start day.quarters day.totals) row_count) out.old at out.new result }
{
    let mut to = at;
    for row in 0..ROWS {
        to = put_row(m, day, row, out, to);
    }
    to
}

// What stands behind the rows.
fn put_foot(out: &mut [u8], at: usize, n: usize, sum: u64) -> usize
    requires { (n ≤ most_quarters) × (at + foot_room ≤ length out.old) }
    ensures { AddsWithin foot_room (foot_svg n sum) out.old at out.new result }
{
    let total = put_label(out, at, 169, b"sum");
    let to = put_total(out, total, 8 * n as u64, 169, sum);
    put(out, to, b"</svg>\n")
}

// THE PICTURE of a day.
pub fn svg_text(m: &StoredRef, start: i64, end: i64, t: Totals, out: &mut [u8; SVG_ROOM]) -> usize
    requires { Drawable (of_ref m.now) start end }
    ensures { AddsWithin svg_room (svg_text (ranges half_open (of_ref m.now)) start end t) out.old 0 out.new result }
{
    let quarters = quarters_of(start, end);
    let day = DrawnDay {
        start,
        quarters,
        totals: t,
    };
    let first = put_frame(out, 0, quarters);
    let foot = put_rows(m, day, out, first);
    put_foot(out, foot, quarters, sum_of(t))
}
