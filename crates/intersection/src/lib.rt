// INTERSECTION of two sets: the common points as maximal ranges, from operations.rs, by one walk over both (`intersection::walk`).
// The ranges are counted or written; the crate `operations` does the one after the other. That names the kind, and what has a loop
// is compiled as a part of its caller (`inline(always)`): else each step would ask for the kind.
#![tactic(auto)]

mod walk;

ghost use Rattle.std.specs.Prelude.{◌≡◌, length};
ghost use Rattle.key.specs.Range.{kind_of};
ghost use Rattle.outcomes.specs.Lent.{of_ref};
ghost use Rattle.range_list.specs.InnerLists.{ListRoom};
ghost use Rattle.two_sets.specs.InnerSides.{Side};
ghost use Rattle.two_sets.specs.InnerLists.{Ended};
ghost use Rattle.intersection.specs.InnerFound.{shared};

use crate::walk::{step, write_from};
use key::RangeKind;
use outcomes::StoredRef;
use two_sets::Position;

// How many ranges the two sets have in common.
#[inline(always)]
pub fn counted(kind: RangeKind, a: &StoredRef, b: &StoredRef) -> usize
    requires { Side (kind_of kind) (of_ref a.now) × Side (kind_of kind) (of_ref b.now) }
    ensures { result ≡ length (shared kind (of_ref a.now) (of_ref b.now)) }
{
    let mut n = 0;
    let mut i = 0;
    let mut j = 0;
    while i < a.count && j < b.count {
        let s = step(kind, a, i, b, j);
        i += s.left as usize;
        j += !s.left as usize;
        n += s.found as usize;
    }
    n
}

// Writes what the sets have in common, and answers how many ranges that is. The first is looked for, and then the rest is written.
#[inline(always)]
pub fn write(
    kind: RangeKind,
    a: &StoredRef,
    b: &StoredRef,
    out_starts: &mut [i64],
    out_ends: &mut [i64],
) -> usize
    requires { Side (kind_of kind) (of_ref a.now) × Side (kind_of kind) (of_ref b.now)
        × ListRoom 0 (shared kind (of_ref a.now) (of_ref b.now)) out_starts.old out_ends.old }
    ensures { Ended (kind_of kind) 0 (shared kind (of_ref a.now) (of_ref b.now))
        out_starts.old out_ends.old result out_starts.new out_ends.new }
{
    let mut i = 0;
    let mut j = 0;
    while i < a.count && j < b.count {
        let s = step(kind, a, i, b, j);
        i += s.left as usize;
        j += !s.left as usize;
        if s.found {
            let first = Position {
                at: 0,
                i,
                j,
                start: s.start,
                end: s.end,
            };
            return write_from(kind, a, b, first, out_starts, out_ends);
        }
    }
    0
}
