// THE WALK over two sets that finds what they have in common, with two positions; the range that ends first goes.
ghost use Rattle.std.specs.Prelude.{◌≡◌, ◌+◌, ◌≤◌, ◌<◌, length};
ghost use Rattle.key.specs.Rank.{rank};
ghost use Rattle.key.specs.Range.{kind_of};
ghost use Rattle.outcomes.specs.Lent.{of_ref};
ghost use Rattle.two_sets.specs.InnerLists.{Ended};
ghost use Rattle.intersection.specs.InnerFound.{open_shared, key_rank, Stepped, Ready, Gone};
ghost use Rattle.intersection.specs.InnerAhead.{Carries};

use key::{Bounds, RangeKind};
use outcomes::StoredRef;
use range_list::put;
use two_sets::{Position, meets, pick};

// A step of the walk: what the two ranges at hand have in common, whether that is anything, and whether the left one goes.
// `found` stands beside the keys, and no `Option` holds them: to take them out of one is a branch that depends on the keys.
#[derive(Clone, Copy)]
pub struct Overlap {
    pub start: i64,
    pub end: i64,
    pub found: bool,
    pub left: bool,
}

// The step over a range of each set.
fn step_over(kind: RangeKind, a: Bounds, b: Bounds) -> Overlap
    ensures { Stepped kind (rank a.start) (rank a.end) (rank b.start) (rank b.end) result.start result.end result.found result.left }
{
    let start = key::max(a.start, b.start);
    let end = key::min(a.end, b.end);
    Overlap {
        start,
        end,
        found: meets(kind, start, end),
        left: a.end < b.end,
    }
}

// The step at places `i` and `j`.
pub fn step(kind: RangeKind, a: &StoredRef, i: usize, b: &StoredRef, j: usize) -> Overlap
    requires { (i < length a.now.starts.now) × (i < length a.now.ends.now) × (j < length b.now.starts.now) × (j < length b.now.ends.now) }
    ensures { Stepped kind (key_rank a.now.starts.now i) (key_rank a.now.ends.now i)
        (key_rank b.now.starts.now j) (key_rank b.now.ends.now j) result.start result.end result.found result.left }
{
    let here = Bounds {
        start: a.starts[i],
        end: a.ends[i],
    };
    let there = Bounds {
        start: b.starts[j],
        end: b.ends[j],
    };
    step_over(kind, here, there)
}

// The end at place `i`, if the set has such a place.
fn end_at(m: &StoredRef, i: usize) -> i64
    requires { m.now.count ≤ length m.now.ends.now }
    ensures { i < m.now.count → rank result ≡ key_rank m.now.ends.now i }
{
    if i < m.count { m.ends[i] } else { 0 }
}

// A step, and the ends at hand after it, of the first set and of the second.
#[derive(Clone, Copy)]
struct Carried {
    step: Overlap,
    here: i64,
    there: i64,
}

// The step at places `i` and `j` where the two ends at hand are carried along. The next end of each set is read before it is known which of the two is wanted:
// so no comparison waits for a read that waits for the comparison before.
fn step_ahead(
    kind: RangeKind,
    a: &StoredRef,
    i: usize,
    end_a: i64,
    b: &StoredRef,
    j: usize,
    end_b: i64,
) -> Carried
    requires { (i < length a.now.starts.now) × (i + 1 < length a.now.ends.now) × (j < length b.now.starts.now) × (j + 1 < length b.now.ends.now)
        × (rank end_a ≡ key_rank a.now.ends.now i) × (rank end_b ≡ key_rank b.now.ends.now j) }
    ensures { Carries kind (of_ref a.now) i (of_ref b.now) j result }
{
    let next_a = a.ends[i + 1];
    let next_b = b.ends[j + 1];
    let here = Bounds {
        start: a.starts[i],
        end: end_a,
    };
    let there = Bounds {
        start: b.starts[j],
        end: end_b,
    };
    let s = step_over(kind, here, there);
    Carried {
        step: s,
        here: pick(s.left, next_a, end_a),
        there: pick(s.left, end_b, next_b),
    }
}

// Writes the open range and what the sets have in common from there on, until either set is at its last range.
// Each step writes the open range, and a range that is found becomes the open one: so no branch depends on the keys.
#[inline(always)]
fn write_most(
    kind: RangeKind,
    a: &StoredRef,
    b: &StoredRef,
    from: Position,
    out_starts: &mut [i64],
    out_ends: &mut [i64],
) -> Position
    requires { Ready kind (of_ref a.now) (of_ref b.now) from out_starts.old out_ends.old }
    ensures { Gone kind (of_ref a.now) (of_ref b.now) from out_starts.old out_ends.old result out_starts.new out_ends.new }
{
    let mut here = from;
    let mut end_a = end_at(a, from.i);
    let mut end_b = end_at(b, from.j);
    while here.i + 1 < a.count && here.j + 1 < b.count {
        put(out_starts, out_ends, here.at, here.start, here.end);
        let carried = step_ahead(kind, a, here.i, end_a, b, here.j, end_b);
        end_a = carried.here;
        end_b = carried.there;
        let t = carried.step;
        here.i += t.left as usize;
        here.j += !t.left as usize;
        here.at += t.found as usize;
        here.start = pick(t.found, t.start, here.start);
        here.end = pick(t.found, t.end, here.end);
    }
    here
}

// Writes the open range and all that the sets have in common from there on, and answers how many ranges are written then.
#[inline(always)]
fn write_rest(
    kind: RangeKind,
    a: &StoredRef,
    b: &StoredRef,
    from: Position,
    out_starts: &mut [i64],
    out_ends: &mut [i64],
) -> usize
    requires { Ready kind (of_ref a.now) (of_ref b.now) from out_starts.old out_ends.old }
    ensures { Ended (kind_of kind) from.at (open_shared kind (of_ref a.now) (of_ref b.now) from)
        out_starts.old out_ends.old result out_starts.new out_ends.new }
{
    let mut here = from;
    while here.i < a.count && here.j < b.count {
        put(out_starts, out_ends, here.at, here.start, here.end);
        let s = step(kind, a, here.i, b, here.j);
        here.i += s.left as usize;
        here.j += !s.left as usize;
        here.at += s.found as usize;
        here.start = pick(s.found, s.start, here.start);
        here.end = pick(s.found, s.end, here.end);
    }
    put(out_starts, out_ends, here.at, here.start, here.end);
    here.at + 1
}

// The same, in two parts: the ends are read ahead as long as both sets have a next range.
#[inline(always)]
pub fn write_from(
    kind: RangeKind,
    a: &StoredRef,
    b: &StoredRef,
    from: Position,
    out_starts: &mut [i64],
    out_ends: &mut [i64],
) -> usize
    requires { Ready kind (of_ref a.now) (of_ref b.now) from out_starts.old out_ends.old }
    ensures { Ended (kind_of kind) from.at (open_shared kind (of_ref a.now) (of_ref b.now) from)
        out_starts.old out_ends.old result out_starts.new out_ends.new }
{
    let most = write_most(kind, a, b, from, out_starts, out_ends);
    write_rest(kind, a, b, most, out_starts, out_ends)
}
