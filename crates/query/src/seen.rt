// What one map holds from a key on, as a walk along the instants sees it.
ghost use Rattle.std.specs.Prelude.{◌≡◌, ◌<◌, min};
ghost use Rattle.key.specs.Rank.{rank};
ghost use Rattle.key.specs.Range.{half_open};
ghost use Rattle.outcomes.specs.Stored.{Sound};
ghost use Rattle.outcomes.specs.Lent.{of_ref};
ghost use Rattle.query.specs.InnerColumns.{spans_of};
ghost use Rattle.query.specs.InnerSeen.{Trails, Standing, Sees};

use key::Value;
use outcomes::StoredRef;

// The class of a value over 9, and of nothing held.
const OTHER: usize = 10;

// What a map holds, by its class, up to which key, and at which place that was seen.
#[derive(Clone, Copy)]
pub struct Seen {
    pub class: usize,
    pub until: i64,
    pub place: usize,
}

fn class_of(value: Value) -> usize
    ensures { result ≡ min value 10 }
{
    (value as usize).min(OTHER)
}

// The first place whose range ends after a key. The ranges before `place` do not.
// A `while`: with a `for` a whole query took 1.13 times as long, which misses its bar of 0.7 (docs/PERFORMANCE.md).
#[tactic(auto, using(crate::proofs::Looks::ends_held))]
fn caught_up(m: &StoredRef, place: usize, key: i64) -> usize
    requires { Sound half_open (of_ref m.now) × Trails (spans_of (of_ref m.now)) place (rank key) }
    ensures { Standing (spans_of (of_ref m.now)) result (rank key) }
{
    let mut here = place;
    while here < m.count && m.ends[here] <= key {
        here += 1;
    }
    here
}

// What a map holds from a key on, as far as that goes on before `end`. `place` is the first place whose range ends after the key.
#[tactic(auto, using(crate::proofs::Looks::starts_held, crate::proofs::Looks::ends_held, crate::proofs::Looks::values_held))]
fn seen_at(m: &StoredRef, place: usize, key: i64, end: i64) -> Seen
    requires { Sound half_open (of_ref m.now) × Standing (spans_of (of_ref m.now)) place (rank key) × (rank key < rank end) }
    ensures { Sees (spans_of (of_ref m.now)) (rank key) (rank end) (rank result.until) result.class result.place }
{
    if place >= m.count {
        return Seen {
            class: OTHER,
            until: end,
            place,
        };
    }
    let start = m.starts[place];
    if key < start {
        return Seen {
            class: OTHER,
            until: key::min(start, end),
            place,
        };
    }
    Seen {
        class: class_of(m.values[place]),
        until: key::min(m.ends[place], end),
        place,
    }
}

// The same from a place that trails the key.
pub fn look(m: &StoredRef, place: usize, key: i64, end: i64) -> Seen
    requires { Sound half_open (of_ref m.now) × Trails (spans_of (of_ref m.now)) place (rank key) × (rank key < rank end) }
    ensures { Sees (spans_of (of_ref m.now)) (rank key) (rank end) (rank result.until) result.class result.place }
{
    let here = caught_up(m, place, key);
    seen_at(m, here, key, end)
}
