// Edits of a map, for either kind: the check of the lent map, and then the unchecked door of its kind. Any map is taken.
use answers::Refusal;
use key::{RangeKind, Value};
use outcomes::Stored;
use store::check::checked;

pub mod bulk;

ghost use Rattle.std.specs.Prelude.{◌≡◌};
ghost use Rattle.key.specs.Range.{Kind, kind_of};
ghost use Rattle.outcomes.specs.Stored.{stored};
ghost use Rattle.outcomes.specs.Outcomes.{clear, insert, remove};
ghost use Rattle.outcomes.specs.InnerOutcome.{Leaves};

// Gives the value to each instant of the range and to no other.
#[tactic(auto, unfolding(outcomes::specs::Outcomes::edit))]
pub fn insert(
    kind: RangeKind,
    m: &mut Stored,
    start: i64,
    end: i64,
    value: Value,
) -> Result<(), Refusal>
    ensures { Leaves result m.new
        (insert (kind_of kind) m.old start end value) }
{
    checked(kind, m)?;
    edit::insert(kind, m, start, end, value)
}

// Uncovers exactly the instants of the range.
#[tactic(auto, unfolding(outcomes::specs::Outcomes::edit))]
pub fn remove(kind: RangeKind, m: &mut Stored, start: i64, end: i64) -> Result<(), Refusal>
    ensures { Leaves result m.new
        (remove (kind_of kind) m.old start end) }
{
    checked(kind, m)?;
    edit::remove(kind, m, start, end)
}

// Leaves nothing held, whatever the kind. It overwrites the map, so it does not check it.
pub fn clear(m: &mut Stored)
    ensures { (k : Kind) → m.new ≡ clear k }
{
    *m = Stored::new();
}
