// Module 4: the operations on two sets, from operations.rs of rangemap. They differ in their walk alone (crates `intersection` and `union`).
// Nothing is written before it is known that the lent lists are long enough; the ranges are counted for that only where there may be too many.
#![tactic(auto)]

ghost use Rattle.std.specs.Prelude.{◌≡◌, ◌≤◌, length};
ghost use Rattle.key.specs.InnerDecides.{Decides};
ghost use Rattle.key.specs.Range.{kind_of};
ghost use Rattle.outcomes.specs.Lent.{of_ref};
ghost use Rattle.outcomes.specs.Sets.{SoundSet};
ghost use Rattle.range_list.specs.InnerLists.{wrote, ListRoom};
ghost use Rattle.two_sets.specs.InnerSides.{Side};
ghost use Rattle.two_sets.specs.InnerLists.{Ended};
ghost use Rattle.operations.specs.InnerOperation.{found_by, combined, combined_any};

use answers::Refusal;
use key::RangeKind;
use outcomes::{Stored, StoredRef};
use two_sets::{are_sets, roomy};

// The operations: what two sets have in common, and what either has.
// An enum, and no closures: an operation is two walks that agree, one that counts and one that writes, and a caller names both by one word.
#[derive(Clone, Copy, Debug, PartialEq, Eq)]
pub enum Operation {
    Intersection,
    Union,
}

// How many ranges an operation finds.
#[inline(always)]
fn counted(kind: RangeKind, operation: Operation, a: &StoredRef, b: &StoredRef) -> usize
    requires { Side (kind_of kind) (of_ref a.now) × Side (kind_of kind) (of_ref b.now) }
    ensures { result ≡ length (found_by operation kind (of_ref a.now) (of_ref b.now)) }
{
    match operation {
        Operation::Intersection => intersection::counted(kind, a, b),
        Operation::Union => union::counted(kind, a, b),
    }
}

// Writes what an operation finds, and answers how many ranges that is.
#[inline(always)]
fn write(
    kind: RangeKind,
    operation: Operation,
    a: &StoredRef,
    b: &StoredRef,
    out_starts: &mut [i64],
    out_ends: &mut [i64],
) -> usize
    requires { Side (kind_of kind) (of_ref a.now) × Side (kind_of kind) (of_ref b.now)
        × ListRoom 0 (found_by operation kind (of_ref a.now) (of_ref b.now)) out_starts.old out_ends.old }
    ensures { Ended (kind_of kind) 0 (found_by operation kind (of_ref a.now) (of_ref b.now))
        out_starts.old out_ends.old result out_starts.new out_ends.new }
{
    match operation {
        Operation::Intersection => intersection::write(kind, a, b, out_starts, out_ends),
        Operation::Union => union::write(kind, a, b, out_starts, out_ends),
    }
}

// Whether `room` places are enough. An operation finds at most as many ranges as the two sets have together, so mostly none is counted.
#[inline(always)]
fn fits(kind: RangeKind, operation: Operation, a: &StoredRef, b: &StoredRef, room: usize) -> bool
    requires { Side (kind_of kind) (of_ref a.now) × Side (kind_of kind) (of_ref b.now) }
    ensures { Decides result (length (found_by operation kind (of_ref a.now) (of_ref b.now)) ≤ room) }
{
    roomy(a.count, b.count, room) || counted(kind, operation, a, b) <= room
}

// What the unchecked door does. It is compiled as a part of each arm there, with the walks: so the kind is a constant in their loops.
#[inline(always)]
fn combine_of(
    kind: RangeKind,
    operation: Operation,
    a: &StoredRef,
    b: &StoredRef,
    out_starts: &mut [i64],
    out_ends: &mut [i64],
) -> Result<usize, Refusal>
    requires { SoundSet (kind_of kind) (of_ref a.now) × SoundSet (kind_of kind) (of_ref b.now) }
    ensures { wrote result out_starts.new out_ends.new ≡ combined operation (kind_of kind) (of_ref a.now) (of_ref b.now)
        out_starts.old out_ends.old }
{
    let room = out_starts.len().min(out_ends.len());
    if !fits(kind, operation, a, b, room) {
        return Err(Refusal::TooShort);
    }
    Ok(write(kind, operation, a, b, out_starts, out_ends))
}

// THE UNCHECKED DOOR: the sets must be sound. The values are lent as a part of the sets, and none is read.
// Each arm names its kind: else the walks would ask for it in each step, and an intersection take a quarter longer.
pub fn combine_unchecked(
    kind: RangeKind,
    operation: Operation,
    a: &StoredRef,
    b: &StoredRef,
    out_starts: &mut [i64],
    out_ends: &mut [i64],
) -> Result<usize, Refusal>
    requires { SoundSet (kind_of kind) (of_ref a.now) × SoundSet (kind_of kind) (of_ref b.now) }
    ensures { wrote result out_starts.new out_ends.new ≡ combined operation (kind_of kind) (of_ref a.now) (of_ref b.now)
        out_starts.old out_ends.old }
{
    match kind {
        RangeKind::HalfOpen => combine_of(
            RangeKind::HalfOpen,
            operation,
            a,
            b,
            out_starts,
            out_ends,
        ),
        RangeKind::Inclusive => combine_of(
            RangeKind::Inclusive,
            operation,
            a,
            b,
            out_starts,
            out_ends,
        ),
    }
}

// Any two sets are taken.
pub fn combine(
    kind: RangeKind,
    operation: Operation,
    a: &Stored,
    b: &Stored,
    out_starts: &mut [i64],
    out_ends: &mut [i64],
) -> Result<usize, Refusal>
    ensures { wrote result out_starts.new out_ends.new ≡ combined_any operation (kind_of kind) a.now b.now out_starts.old out_ends.old }
{
    if !are_sets(kind, a, b) {
        return Err(Refusal::NotFormed);
    }
    combine_unchecked(kind, operation, &a.lent(), &b.lent(), out_starts, out_ends)
}
