// GAPS, for either kind of range: the maximal uncovered ranges inside an outer range. It is one walk over the places, with a cursor: the first
// key that may be free. Nothing is written before it is known that the lent lists are long enough; the gaps are counted for that only where
// there may be too many.
// The kinds differ in three places, all of the keys: whether a range from one key to another is empty (`full`, by which the search goes too),
// which end is written for a range up to a key (`end_before`), and which key follows a range (`after`).
// The walk is compiled into each door (`#[inline(always)]`), where the kind is a constant: in a function of its own each turn of the loops
// would test the kind.
#![tactic(auto)]

ghost use Rattle.std.specs.Prelude.{◌≡◌, ◌+◌, ◌≤◌, ◌<◌, length};
ghost use Rattle.key.specs.InnerDecides.{Decides};
ghost use Rattle.key.specs.Rank.{rank};
ghost use Rattle.key.specs.Range.{kind_of};
ghost use Rattle.outcomes.specs.Lent.{of_ref};
ghost use Rattle.outcomes.specs.Stored.{Sound};
ghost use Rattle.outcomes.specs.Outcomes.{gaps_sound};
ghost use Rattle.range_list.specs.InnerLists.{wrote, ListRoom, Puts};
ghost use Rattle.gaps.specs.InnerWalk.{gap, gaps_found, Places};

use answers::Refusal;
use key::{Bounds, RangeKind, after, end_before, full};
use outcomes::StoredRef;
use range_list::put;
use store::search::reaching;

// How many gaps lie between the cursor and the next range: one or none.
fn between(cursor: i64, start: i64) -> usize
    ensures { result ≡ length (gap (rank cursor) (rank start)) }
{
    usize::from(cursor < start)
}

// How many gaps the places from `from` on leave in the outer range.
#[inline(always)]
fn counted(kind: RangeKind, m: &StoredRef, from: usize, outer: Bounds) -> usize
    requires places { Places m.now.count from m.now.starts.now m.now.ends.now }
    requires outer_full { rank outer.start < (kind_of kind).past outer.end }
    ensures { result ≡ length (gaps_found (kind_of kind) m.now.starts.now m.now.ends.now m.now.count from outer) }
{
    let end = outer.end;
    let mut n = 0;
    let mut cursor = outer.start;
    for k in from..m.count {
        let first = m.starts[k];
        if !full(kind, first, end) {
            return n + 1;
        }
        n += between(cursor, first);
        let stop = m.ends[k];
        if end <= stop {
            return n;
        }
        cursor = after(kind, stop);
    }
    n + 1
}

// Whether `room` places are enough for the gaps. There is at most one before each range, and one more, so mostly none is counted.
#[inline(always)]
fn fits(kind: RangeKind, m: &StoredRef, from: usize, outer: Bounds, room: usize) -> bool
    requires places { Places m.now.count from m.now.starts.now m.now.ends.now }
    requires outer_full { rank outer.start < (kind_of kind).past outer.end }
    ensures { Decides result (length (gaps_found (kind_of kind) m.now.starts.now m.now.ends.now m.now.count from outer) ≤ room) }
{
    m.count - from < room || counted(kind, m, from, outer) <= room
}

// Writes the gap from the cursor up to the next range into place `n`, if there is one, and answers the next place.
fn write_before(
    kind: RangeKind,
    out_starts: &mut [i64],
    out_ends: &mut [i64],
    n: usize,
    cursor: i64,
    next: i64,
) -> usize
    requires { ListRoom n (gap (rank cursor) (rank next)) out_starts.old out_ends.old }
    ensures { (result ≡ n + length (gap (rank cursor) (rank next)))
        × Puts (kind_of kind) n (gap (rank cursor) (rank next))
        out_starts.old out_ends.old out_starts.new out_ends.new }
{
    if cursor < next {
        put(out_starts, out_ends, n, cursor, end_before(kind, next));
        return n + 1;
    }
    n
}

// Writes the gaps, and answers how many there are. The cursor goes past a range only where the outer end was seen to lie after it.
// It has the loop of `counted` again: a closure that puts a gap can be called only while there is room, which one loop would have to promise at each step.
#[inline(always)]
fn write(
    kind: RangeKind,
    m: &StoredRef,
    from: usize,
    outer: Bounds,
    out_starts: &mut [i64],
    out_ends: &mut [i64],
) -> usize
    requires places { Places m.now.count from m.now.starts.now m.now.ends.now }
    requires outer_full { rank outer.start < (kind_of kind).past outer.end }
    requires room { ListRoom 0 (gaps_found (kind_of kind) m.now.starts.now m.now.ends.now m.now.count from outer) out_starts.old out_ends.old }
    ensures { (result ≡ length (gaps_found (kind_of kind) m.now.starts.now m.now.ends.now m.now.count from outer))
        × Puts (kind_of kind) 0 (gaps_found (kind_of kind) m.now.starts.now m.now.ends.now m.now.count from outer)
        out_starts.old out_ends.old out_starts.new out_ends.new }
{
    let end = outer.end;
    let mut at = 0;
    let mut cursor = outer.start;
    for k in from..m.count {
        let next = m.starts[k];
        if !full(kind, next, end) {
            put(out_starts, out_ends, at, cursor, end);
            return at + 1;
        }
        at = write_before(kind, out_starts, out_ends, at, cursor, next);
        let last = m.ends[k];
        if end <= last {
            return at;
        }
        cursor = after(kind, last);
    }
    put(out_starts, out_ends, at, cursor, end);
    at + 1
}

// GAPS. The walk begins at the first range that the outer range's start has not passed. No value is read.
#[inline(always)]
pub fn gaps(
    kind: RangeKind,
    m: &StoredRef,
    start: i64,
    end: i64,
    out_starts: &mut [i64],
    out_ends: &mut [i64],
) -> Result<usize, Refusal>
    requires { Sound (kind_of kind) (of_ref m.now) }
    ensures { wrote result out_starts.new out_ends.new
        ≡ gaps_sound (kind_of kind) (of_ref m.now) start end
        out_starts.old out_ends.old }
{
    if !full(kind, start, end) {
        return Err(Refusal::EmptyRange);
    }
    let from = reaching(kind, m.ends, m.count, start);
    let room = out_starts.len().min(out_ends.len());
    let outer = Bounds { start, end };
    if !fits(kind, m, from, outer, room) {
        return Err(Refusal::TooShort);
    }
    Ok(write(kind, m, from, outer, out_starts, out_ends))
}
