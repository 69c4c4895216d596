// The walk over the starts of a map, from the place that the search among its ends has found.
ghost use Rattle.std.specs.Prelude.{◌≤◌, length};
ghost use Rattle.key.specs.Range.{kind_of};
ghost use Rattle.store.specs.InnerSearch.{FirstPast};

use key::{RangeKind, full};

// The first place from `from` on that begins past a range up to `end`: `count` if there is none.
// It walks, since an edit or a question meets few ranges; `search::first_past` promises the same and halves.
pub fn first_past(kind: RangeKind, starts: &[i64], from: usize, count: usize, end: i64) -> usize
    requires { (from ≤ count) × (count ≤ length starts.now) }
    ensures { FirstPast (kind_of kind) count starts.now from end result }
{
    match starts[from..count]
        .iter()
        .position(|start| !full(kind, *start, end))
    {
        Some(n) => from + n,
        None => count,
    }
}
