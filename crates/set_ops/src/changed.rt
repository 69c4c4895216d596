// Edits of a set: those of the map, with value 0.
ghost use Rattle.answers.specs.Refusals.{number};
ghost use Rattle.key.specs.Range.{kind_of};
ghost use Rattle.outcomes.specs.Outcomes.{insert, leaving, remove};
ghost use Rattle.outcomes.specs.Sets.{if_set};
ghost use Rattle.outcomes.specs.InnerOutcome.{Leaves};

use crate::plain_set;
use answers::Refusal;
use key::RangeKind;
use outcomes::Stored;

// Covers each instant of the range, and no other.
pub fn insert(kind: RangeKind, m: &mut Stored, start: i64, end: i64) -> Result<(), Refusal>
    ensures { Leaves result m.new
        (if_set m.old (insert (kind_of kind) m.old start end 0)
        (λ why. leaving (number why) m.old)) }
{
    plain_set(m)?;
    map_ops::change::insert(kind, m, start, end, 0)
}

// Uncovers exactly the instants of the range.
pub fn remove(kind: RangeKind, m: &mut Stored, start: i64, end: i64) -> Result<(), Refusal>
    ensures { Leaves result m.new
        (if_set m.old (remove (kind_of kind) m.old start end)
        (λ why. leaving (number why) m.old)) }
{
    plain_set(m)?;
    map_ops::change::remove(kind, m, start, end)
}
