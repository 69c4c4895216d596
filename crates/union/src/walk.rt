// THE WALK over two sets that joins them, with two positions; the range that starts first is taken.
// Ranges that overlap become one. Ranges that only touch stay apart, as in the Rust.
ghost use Rattle.std.specs.Prelude.{◌≡◌, ◌+◌, ◌≤◌, ◌<◌, length};
ghost use Rattle.key.specs.Range.{kind_of};
ghost use Rattle.outcomes.specs.Lent.{of_ref};
ghost use Rattle.range_list.specs.InnerLists.{ListRoom};
ghost use Rattle.two_sets.specs.InnerSides.{Side};
ghost use Rattle.two_sets.specs.InnerLists.{Ended};
ghost use Rattle.union.specs.InnerFound.{open_at, OpenedAt, TakesNext, First};

use key::RangeKind;
use outcomes::StoredRef;
use range_list::put;
use two_sets::{Position, meets, pick};

// A range that is taken, and whether it is the left set's.
#[derive(Clone, Copy)]
struct Taken {
    start: i64,
    end: i64,
    left: bool,
}

// The next range, by its start, where one set is at place `i` and the other at place `j`.
fn next(a: &StoredRef, i: usize, b: &StoredRef, j: usize) -> Taken
    requires { (a.now.count ≤ length a.now.starts.now) × (length a.now.ends.now ≡ length a.now.starts.now)
        × (b.now.count ≤ length b.now.starts.now) × (length b.now.ends.now ≡ length b.now.starts.now)
        × (i ≤ a.now.count) × (j ≤ b.now.count) × (i + j < a.now.count + b.now.count) }
    ensures { TakesNext (of_ref a.now) i (of_ref b.now) j result }
{
    if b.count <= j {
        return Taken {
            start: a.starts[i],
            end: a.ends[i],
            left: true,
        };
    }
    if a.count <= i {
        return Taken {
            start: b.starts[j],
            end: b.ends[j],
            left: false,
        };
    }
    let start_a = a.starts[i];
    let start_b = b.starts[j];
    let left = start_a < start_b;
    Taken {
        start: pick(left, start_a, start_b),
        end: pick(left, a.ends[i], b.ends[j]),
        left,
    }
}

// Where the walk is once the first range is taken: that is the open one.
pub fn first(kind: RangeKind, a: &StoredRef, b: &StoredRef) -> Position
    requires { Side (kind_of kind) (of_ref a.now) × Side (kind_of kind) (of_ref b.now) × (0 < a.now.count + b.now.count) }
    ensures { First kind (of_ref a.now) (of_ref b.now) result }
{
    let t = next(a, 0, b, 0);
    Position {
        at: 0,
        i: t.left as usize,
        j: !t.left as usize,
        start: t.start,
        end: t.end,
    }
}

// How many ranges there are from where the walk is.
#[inline(always)]
pub fn counted_from(kind: RangeKind, a: &StoredRef, b: &StoredRef, from: Position) -> usize
    requires { Side (kind_of kind) (of_ref a.now) × Side (kind_of kind) (of_ref b.now) × OpenedAt kind (of_ref a.now) (of_ref b.now) from }
    ensures { result ≡ length (open_at kind (of_ref a.now) (of_ref b.now) from) }
{
    let total = a.count + b.count;
    let mut n = 0;
    let mut here = from;
    while here.i + here.j < total {
        let t = next(a, here.i, b, here.j);
        // Only ranges that overlap become one: those that touch stay apart.
        let joins = meets(kind, t.start, here.end);
        here.i += t.left as usize;
        here.j += !t.left as usize;
        n += !joins as usize;
        here.start = pick(joins, here.start, t.start);
        here.end = key::max(here.end, t.end);
    }
    n + 1
}

// Writes the ranges from where the walk is, and answers how many are written then. Each step writes the open range; the next one makes it longer,
// or becomes the open one: so no branch depends on the keys.
#[inline(always)]
pub fn write_from(
    kind: RangeKind,
    a: &StoredRef,
    b: &StoredRef,
    from: Position,
    out_starts: &mut [i64],
    out_ends: &mut [i64],
) -> usize
    requires { Side (kind_of kind) (of_ref a.now) × Side (kind_of kind) (of_ref b.now) × OpenedAt kind (of_ref a.now) (of_ref b.now) from
        × ListRoom from.at (open_at kind (of_ref a.now) (of_ref b.now) from) out_starts.old out_ends.old }
    ensures { Ended (kind_of kind) from.at (open_at kind (of_ref a.now) (of_ref b.now) from)
        out_starts.old out_ends.old result out_starts.new out_ends.new }
{
    let total = a.count + b.count;
    let mut here = from;
    while here.i + here.j < total {
        put(out_starts, out_ends, here.at, here.start, here.end);
        let t = next(a, here.i, b, here.j);
        let same = meets(kind, t.start, here.end);
        here.i += t.left as usize;
        here.j += !t.left as usize;
        here.at += !same as usize;
        here.start = pick(same, here.start, t.start);
        here.end = key::max(here.end, t.end);
    }
    put(out_starts, out_ends, here.at, here.start, here.end);
    here.at + 1
}
