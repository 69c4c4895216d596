// The check of a lent map of either kind. The live places are walked once, and each column of the unused ones once.
ghost use Rattle.std.specs.Prelude.{◌≡◌, true, ℕ, ◌+◌, ◌<◌, ◌≤◌, length, pos};
ghost use Rattle.key.specs.InnerDecides.{Decides};
ghost use Rattle.key.specs.Rank.{rank};
ghost use Rattle.key.specs.Range.{half_open, inclusive, kind_of};
ghost use Rattle.outcomes.specs.Stored.{places, Sound, Spare};
ghost use Rattle.outcomes.specs.Lent.{of_ref};
ghost use Rattle.outcomes.specs.Outcomes.{formed};
ghost use Rattle.store.specs.InnerCheck.{check, Follows, Steps, Keys, Unused};

use crate::plain::plain;
use answers::Refusal;
use key::{RangeKind, Value, full};
use outcomes::{PLACES, Stored, StoredRef};

// The greatest key at which the next range may not begin: the end of a half-open range before one of the same value, else the key before its end.
fn bar(end: i64, value: Value, next: Value) -> i64
    requires { 0 < rank end }
    ensures { (value ≡ next → rank result ≡ rank end) × ((value ≡ next → ⊥) → rank result + 1 ≡ rank end) }
{
    if value == next { end } else { key::prev(end) }
}

// Whether the half-open range at `k` is not empty, and the next one may follow it. A good map passes both tests, so no branch is ever mistaken.
// Inclusive ranges have a test of their own: one for both kinds, over `full` and `after`, took more than twice the time of a place.
fn half_open(m: &StoredRef, k: usize) -> bool
    requires { (k + 1 < length m.now.starts.now) × (length m.now.ends.now ≡ length m.now.starts.now) × (length m.now.values.now ≡ length m.now.starts.now) }
    ensures follows { Decides result (Follows half_open (of_ref m.now) k) }
    ensures keys { Keys (of_ref m.now) k }
{
    let end = m.ends[k];
    let next = m.starts[k + 1];
    m.starts[k] < end && bar(end, m.values[k], m.values[k + 1]) < next
}

// The same for an inclusive range. One is added to the end only where a later key was seen.
fn inclusive(m: &StoredRef, k: usize) -> bool
    requires { (k + 1 < length m.now.starts.now) × (length m.now.ends.now ≡ length m.now.starts.now) × (length m.now.values.now ≡ length m.now.starts.now) }
    ensures follows { Decides result (Follows inclusive (of_ref m.now) k) }
    ensures keys { Keys (of_ref m.now) k }
{
    let end = m.ends[k];
    let next = m.starts[k + 1];
    m.starts[k] <= end && end < next && (end + 1 != next || m.values[k] != m.values[k + 1])
}

// The same for a range of either kind.
fn step(kind: RangeKind, m: &StoredRef, k: usize) -> bool
    requires { (k + 1 < length m.now.starts.now) × (length m.now.ends.now ≡ length m.now.starts.now) × (length m.now.values.now ≡ length m.now.starts.now) }
    ensures follows { Decides result (Follows (kind_of kind) (of_ref m.now) k) }
    ensures keys { Keys (of_ref m.now) k }
{
    match kind {
        RangeKind::HalfOpen => half_open(m, k),
        RangeKind::Inclusive => inclusive(m, k),
    }
}

// Whether the live places are tidy: no range empty or reversed, all ascending without overlap, none joining the next. The last has no next.
// It stays a function of its own, and is lent the columns one by one: so its loop is short, and reads each from an address that is at hand.
// As a part of `well_formed`, with all three in one struct, the check of an inclusive map took 1.3 to 1.5 times as long.
#[inline(never)]
fn tidy(kind: RangeKind, m: &StoredRef) -> bool
    requires { (m.now.count ≤ length m.now.starts.now)
        × (length m.now.ends.now ≡ length m.now.starts.now) × (length m.now.values.now ≡ length m.now.starts.now) }
    ensures decides { Decides result (Steps (kind_of kind) (of_ref m.now)) }
    ensures keys { result ≡ true → (k : ℕ) → k < m.now.count → Keys (of_ref m.now) k }
{
    if m.count == 0 {
        return true;
    }
    let last = m.count - 1;
    // The copy is read before the loop: else the address of the values is read again in each turn.
    let lent = *m;
    (0..last).all(|k| step(kind, &lent, k)) && full(kind, m.starts[last], m.ends[last])
}

// Whether all keys are 0. The loop takes several places at a time, since nothing ends it early: `all` took five times as long.
// `plain` asks the same of values: a law of `|` for cells of any type would be longer than both.
fn zeros(keys: &[i64]) -> bool
    ensures { Decides result (Spare keys.now 0 (pos 0)) }
{
    let mut seen = 0;
    for key in keys {
        seen |= *key;
    }
    seen == 0
}

// What both kinds of map share: whether the count is at most the number of places, and the places from it on hold 0.
fn unused(m: &Stored) -> bool
    ensures decides { Decides result (Unused places m.now) }
    ensures all_places { (length m.now.starts ≡ places) × (length m.now.ends ≡ places) × (length m.now.values ≡ places) }
{
    if PLACES < m.count {
        return false;
    }
    zeros(&m.starts[m.count..]) && zeros(&m.ends[m.count..]) && plain(&m.values[m.count..])
}

// Whether a lent map is well formed: `true` exactly where it is, and then it is sound and has all its places.
// It stays a function of its own, for its size: so what checks and then does little is compiled into each door, where the kind is a constant.
#[inline(never)]
pub fn well_formed(kind: RangeKind, m: &Stored) -> bool
    ensures value { result ≡ formed (kind_of kind) m.now }
    ensures sound { result ≡ true → Sound (kind_of kind) m.now }
    ensures starts_len { result ≡ true → length m.now.starts ≡ places }
{
    unused(m) && tidy(kind, &m.lent())
}

// The same as a result: a map that is not well formed is refused, and one that is sound and has all its places is let pass.
pub fn checked(kind: RangeKind, m: &Stored) -> Result<(), Refusal>
    ensures value { result ≡ check (kind_of kind) m.now }
    ensures sound { formed (kind_of kind) m.now ≡ true → Sound (kind_of kind) m.now }
    ensures starts_len { formed (kind_of kind) m.now ≡ true → length m.now.starts ≡ places }
{
    if well_formed(kind, m) {
        Ok(())
    } else {
        Err(Refusal::NotFormed)
    }
}
