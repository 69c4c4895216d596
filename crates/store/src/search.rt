// THE SEARCH in a column of a map. It halves the places that are left, and no branch depends on a key.
ghost use Rattle.std.specs.Prelude.{◌≡◌, cond, ◌+◌, ◌*◌, ◌^◌, ◌<◌, ◌≤◌, length};
ghost use Rattle.key.specs.Range.{kind_of};
ghost use Rattle.store.specs.InnerSearch.{Ascends, Reached, FirstPast};

use key::{RangeKind, full};

// `low`, or the place `step` places on where the search goes on. It is computed and not jumped to: no processor foresees in which half a key lies,
// and a branch that was mistaken takes longer than a comparison. The compiler makes a branch of what it sees as a choice, as an `if`, a product, or
// a shift to the right by 63 or by none; of this it makes none.
fn advance(low: usize, step: usize, goes: bool) -> usize
    requires { low + 2 * step < 2 ^ 64 }
    ensures { result ≡ low + cond goes step 0 }
{
    low + (step << goes as usize) - step
}

// The first place from `from` on whose key lies past a range up to `end`: `count` if there is none.
// Both halves have the size `left / 2`, so how many keys are compared depends on the number of places alone. Where `left` is even and the search
// goes on, the key in the middle stays among those that are left.
pub fn first_past(kind: RangeKind, keys: &[i64], from: usize, count: usize, end: i64) -> usize
    requires { (from ≤ count) × (count ≤ length keys.now) × Ascends count keys.now }
    ensures { FirstPast (kind_of kind) count keys.now from end result }
{
    let mut low = from;
    let mut left = count - from;
    while 0 < left {
        let half = left / 2;
        let step = left - half;
        let middle = keys[low + half];
        let goes = full(kind, middle, end);
        low = advance(low, step, goes);
        left = half;
    }
    low
}

// The first place whose range is not past at the key: `count` if there is none. A half-open range is past at its end, an inclusive one after it.
// So what is sought among the ends is the first that lies past the key: of half-open ranges past `..=key`, of inclusive ones past `..key`.
pub fn reaching(kind: RangeKind, ends: &[i64], count: usize, key: i64) -> usize
    requires { (count ≤ length ends.now) × Ascends count ends.now }
    ensures { Reached (kind_of kind) count ends.now key result }
{
    match kind {
        RangeKind::HalfOpen => first_past(RangeKind::Inclusive, ends, 0, count, key),
        RangeKind::Inclusive => first_past(RangeKind::HalfOpen, ends, 0, count, key),
    }
}
