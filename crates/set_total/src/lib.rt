// TOTAL: how many keys a set covers. A range's length is a difference of ranks, which never wraps; one of i64 can.
#![tactic(auto)]

ghost use Rattle.std.specs.Prelude.{◌≡◌, ◌-◌, ◌≤◌, ◌<◌};
ghost use Rattle.key.specs.InnerDecides.{Decides};
ghost use Rattle.key.specs.Rank.{rank, keys};
ghost use Rattle.key.specs.Range.{kind_of};
ghost use Rattle.outcomes.specs.Lent.{of_ref};
ghost use Rattle.outcomes.specs.Sets.{SoundSet, total_sound, total_of};
ghost use Rattle.two_sets.specs.InnerSides.{Side};
ghost use Rattle.set_total.specs.InnerSum.{rows_total};

use answers::Refusal;
use key::RangeKind;
use outcomes::{Stored, StoredRef};
use store::plain::is_set;
use two_sets::width;

// How far apart two keys are.
fn apart(start: i64, end: i64) -> u64
    requires { rank start ≤ rank end }
    ensures { result ≡ rank end - rank start }
{
    key::rank_of(end) - key::rank_of(start)
}

// Whether the set is the one range of all keys. No u64 holds its total, and it is the only such set.
fn full(kind: RangeKind, m: &StoredRef) -> bool
    requires { Side (kind_of kind) (of_ref m.now) }
    ensures { Decides result (keys ≤ rows_total kind (of_ref m.now)) }
{
    width(kind) == 1 && m.count > 0 && apart(m.starts[0], m.ends[0]) == u64::MAX
}

// The lengths, added up.
fn sum(kind: RangeKind, m: &StoredRef) -> u64
    requires { Side (kind_of kind) (of_ref m.now) × (rows_total kind (of_ref m.now) < keys) }
    ensures { result ≡ rows_total kind (of_ref m.now) }
{
    let mut total = 0;
    for k in 0..m.count {
        total += apart(m.starts[k], m.ends[k]) + width(kind);
    }
    total
}

// THE UNCHECKED DOOR: the set must be sound. The values are lent as a part of the set, and none is read.
pub fn total_unchecked(kind: RangeKind, m: &StoredRef) -> Result<u64, Refusal>
    requires { SoundSet (kind_of kind) (of_ref m.now) }
    ensures { result ≡ total_sound (kind_of kind) (of_ref m.now) }
{
    if full(kind, m) {
        return Err(Refusal::TotalOver);
    }
    Ok(sum(kind, m))
}

// Any set is taken.
#[tactic(auto, unfolding(outcomes::specs::Sets::total_of))]
pub fn total(kind: RangeKind, m: &Stored) -> Result<u64, Refusal>
    ensures { result ≡ total_of (kind_of kind) m.now }
{
    if !is_set(kind, m) {
        return Err(Refusal::NotFormed);
    }
    total_unchecked(kind, &m.lent())
}
