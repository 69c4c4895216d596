// UNION of two sets: the points of either, ascending and disjoint, from operations.rs, by one walk over both (`union::walk`).
// The ranges are counted or written; the crate `operations` does the one after the other. That names the kind, and what has a loop
// is compiled as a part of its caller (`inline(always)`): else each step would ask for the kind.
#![tactic(auto)]

mod walk;

ghost use Rattle.std.specs.Prelude.{◌≡◌, length};
ghost use Rattle.key.specs.Range.{kind_of};
ghost use Rattle.outcomes.specs.Lent.{of_ref};
ghost use Rattle.range_list.specs.InnerLists.{ListRoom};
ghost use Rattle.two_sets.specs.InnerSides.{Side};
ghost use Rattle.two_sets.specs.InnerLists.{Ended};
ghost use Rattle.union.specs.InnerFound.{either};

use crate::walk::{counted_from, first, write_from};
use key::RangeKind;
use outcomes::StoredRef;

// How many ranges the union has.
#[inline(always)]
pub fn counted(kind: RangeKind, a: &StoredRef, b: &StoredRef) -> usize
    requires { Side (kind_of kind) (of_ref a.now) × Side (kind_of kind) (of_ref b.now) }
    ensures { result ≡ length (either kind (of_ref a.now) (of_ref b.now)) }
{
    if a.count + b.count == 0 {
        return 0;
    }
    let from = first(kind, a, b);
    counted_from(kind, a, b, from)
}

// Writes the union, and answers how many ranges it has.
#[inline(always)]
pub fn write(
    kind: RangeKind,
    a: &StoredRef,
    b: &StoredRef,
    out_starts: &mut [i64],
    out_ends: &mut [i64],
) -> usize
    requires { Side (kind_of kind) (of_ref a.now) × Side (kind_of kind) (of_ref b.now)
        × ListRoom 0 (either kind (of_ref a.now) (of_ref b.now)) out_starts.old out_ends.old }
    ensures { Ended (kind_of kind) 0 (either kind (of_ref a.now) (of_ref b.now))
        out_starts.old out_ends.old result out_starts.new out_ends.new }
{
    if a.count + b.count == 0 {
        return 0;
    }
    let from = first(kind, a, b);
    write_from(kind, a, b, from, out_starts, out_ends)
}
