// The comparison of two lent maps, place by place. An end of either kind ascends with its key, so one piece of code serves both kinds of map:
// the contract speaks of half-open ranges, and `one_order` of the proofs says that inclusive ranges compare no differently.
#![tactic(auto)]

ghost use Rattle.std.specs.Prelude.{◌≡◌, [], ◌∷◌, ◌≤◌, length, Ok};
ghost use Rattle.span.specs.Operations.{span_order};
ghost use Rattle.key.specs.Range.{half_open, span_of};
ghost use Rattle.outcomes.specs.Lent.{of_ref};
ghost use Rattle.outcomes.specs.Outcomes.{order_sound, compared_by};

use key::Entry;
use outcomes::StoredRef;
use std::cmp::Ordering;

// One place of each map: by the starts, then the ends, then the values.
fn compare_place(one: Entry, other: Entry) -> Ordering
    ensures { Ok result ≡ compared_by (span_order (span_of half_open one.start one.end one.value ∷ [])
        (span_of half_open other.start other.end other.value ∷ [])) }
{
    (one.start, one.end, one.value).cmp(&(other.start, other.end, other.value))
}

// The first place at which the maps differ decides. Where there is none, a prefix comes first.
pub fn compare(m: &StoredRef, other: &StoredRef) -> Ordering
    requires count_in_bounds { (m.now.count ≤ length m.now.starts.now) × (length m.now.ends.now ≡ length m.now.starts.now)
        × (length m.now.values.now ≡ length m.now.starts.now) }
    requires count2_in_bounds { (other.now.count ≤ length other.now.starts.now) × (length other.now.ends.now ≡ length other.now.starts.now)
        × (length other.now.values.now ≡ length other.now.starts.now) }
    ensures { Ok result ≡ compared_by (order_sound half_open (of_ref m.now) (of_ref other.now)) }
{
    for k in 0..m.count.min(other.count) {
        let here = Entry {
            start: m.starts[k],
            end: m.ends[k],
            value: m.values[k],
        };
        let there = Entry {
            start: other.starts[k],
            end: other.ends[k],
            value: other.values[k],
        };
        let order = compare_place(here, there);
        if order.is_ne() {
            return order;
        }
    }
    m.count.cmp(&other.count)
}
