// What a map holds as a list, for either kind: the check of the lent map, and then the answer. Any map is taken.
ghost use Rattle.std.specs.Prelude.{◌≡◌, ◌-◌};
ghost use Rattle.key.specs.Range.{kind_of};
ghost use Rattle.outcomes.specs.Stored.{stored};
ghost use Rattle.outcomes.specs.Outcomes.{count_of, equal, first_of, is_empty, last_of, order, range_at};

use answers::Refusal;
use key::{Entry, RangeKind};
use outcomes::Stored;
use std::cmp::Ordering;
use store::check::checked;

// Whether nothing is held.
#[tactic(auto, unfolding(outcomes::specs::Outcomes::is_empty))]
pub fn is_empty(kind: RangeKind, m: &Stored) -> Result<bool, Refusal>
    ensures { result ≡ is_empty (kind_of kind) m.now }
{
    checked(kind, m)?;
    Ok(m.count == 0)
}

// How many ranges are held.
#[tactic(auto, unfolding(outcomes::specs::Outcomes::count_of))]
pub fn len(kind: RangeKind, m: &Stored) -> Result<usize, Refusal>
    ensures { result ≡ count_of (kind_of kind) m.now }
{
    // It has a name so that this line is no other's: an edit of must-fail/ changes it.
    let _formed = checked(kind, m)?;
    Ok(m.count)
}

// The range and the value at a place.
#[tactic(auto, unfolding(outcomes::specs::Outcomes::range_at))]
pub fn range_at(kind: RangeKind, m: &Stored, place: usize) -> Result<Option<Entry>, Refusal>
    ensures { result ≡ range_at (kind_of kind) m.now place }
{
    checked(kind, m)?;
    lookup::range_at(&m.lent(), place)
}

// The first range and its value.
#[tactic(auto, unfolding(outcomes::specs::Outcomes::range_at))]
pub fn first_range_value(kind: RangeKind, m: &Stored) -> Result<Option<Entry>, Refusal>
    ensures { result ≡ first_of (kind_of kind) m.now }
{
    checked(kind, m)?;
    lookup::range_at(&m.lent(), 0)
}

// The last range and its value.
#[tactic(auto, unfolding(outcomes::specs::Outcomes::range_at))]
pub fn last_range_value(kind: RangeKind, m: &Stored) -> Result<Option<Entry>, Refusal>
    ensures { result ≡ last_of (kind_of kind) m.now }
{
    checked(kind, m)?;
    lookup::range_at(&m.lent(), m.count.saturating_sub(1))
}

// Which of two maps comes first.
pub fn cmp(kind: RangeKind, m: &Stored, other: &Stored) -> Result<Ordering, Refusal>
    ensures { result ≡ order (kind_of kind) m.now other.now }
{
    checked(kind, m)?;
    checked(kind, other)?;
    Ok(compare::compare(&m.lent(), &other.lent()))
}

// Whether two maps hold the same ranges with the same values.
pub fn eq(kind: RangeKind, m: &Stored, other: &Stored) -> Result<bool, Refusal>
    ensures { result ≡ equal (kind_of kind) m.now other.now }
{
    outcomes::equal_of(cmp(kind, m, other))
}
