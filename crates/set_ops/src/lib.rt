// Module 5, for either kind: the functions of a set, from set.rs and inclusive_set.rs of rangemap. A set is a map whose
// values are all 0. That is asked first, and then the map answers: what it answers, mods stored and found; what it leaves, mods changed and bulk.
#![tactic(auto)]

ghost use Rattle.std.specs.Prelude.{◌≡◌, Ok, Err};
ghost use Rattle.outcomes.specs.Sets.{if_set};

use answers::Refusal;
use outcomes::Stored;
use store::plain::plain;

pub mod bulk;
pub mod changed;
pub mod found;
pub mod stored;

// Whether a lent map is one whose values are all 0: any other is refused.
#[tactic(auto, unfolding(outcomes::specs::Sets::plain))]
fn plain_set(m: &Stored) -> Result<(), Refusal>
    ensures { result ≡ if_set m.now (Ok tt) Err }
{
    if plain(&m.values) {
        Ok(())
    } else {
        Err(Refusal::NotFormed)
    }
}
