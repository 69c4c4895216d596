// Bulk insert into a set: in list order, up to the first refusal. The set is checked once.
// It is not the map's bulk insert with values of 0: nobody lends a list of zeros, and none of any length fits in fixed memory.
ghost use Rattle.std.specs.Prelude.{◌≡◌};
ghost use Rattle.answers.specs.Refusals.{number};
ghost use Rattle.key.specs.Range.{kind_of};
ghost use Rattle.outcomes.specs.Stored.{Sound};
ghost use Rattle.outcomes.specs.Outcomes.{bulk_insert, bulk_insert_sound, extended};
ghost use Rattle.outcomes.specs.Sets.{if_set, pairs};

use answers::{DONE, Refusal};
use key::RangeKind;
use outcomes::{Applied, Stored};
use store::plain::is_set;

// The ranges of two lent lists, into a set that is well formed.
fn extend_formed(kind: RangeKind, m: &mut Stored, new_starts: &[i64], new_ends: &[i64]) -> Applied
    requires { Sound (kind_of kind) m.old }
    ensures { extended result m.new
        ≡ bulk_insert_sound (kind_of kind) m.old 0 (pairs new_starts.now new_ends.now) }
{
    let n = new_starts.len().min(new_ends.len());
    for i in 0..n {
        let went = edit::insert(kind, m, new_starts[i], new_ends[i], 0);
        if let Err(why) = went {
            return Applied {
                answer: why.number(),
                applied: i,
            };
        }
    }
    Applied {
        answer: DONE,
        applied: n,
    }
}

// The same, into any set.
#[tactic(auto, unfolding(outcomes::specs::Outcomes::bulk_insert))]
pub fn extend(kind: RangeKind, m: &mut Stored, new_starts: &[i64], new_ends: &[i64]) -> Applied
    ensures { extended result m.new
        ≡ if_set m.old
        (bulk_insert (kind_of kind) m.old (pairs new_starts.now new_ends.now))
        (λ why. extended (record { answer = number why; applied = 0 }) m.old) }
{
    if !is_set(kind, m) {
        return Applied {
            answer: Refusal::NotFormed.number(),
            applied: 0,
        };
    }
    extend_formed(kind, m, new_starts, new_ends)
}
