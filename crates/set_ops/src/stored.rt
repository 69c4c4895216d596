// What a set holds as a list: a set is a map whose values are all 0, so the answer is the map's.
ghost use Rattle.std.specs.Prelude.{◌≡◌, Err};
ghost use Rattle.key.specs.Range.{kind_of};
ghost use Rattle.outcomes.specs.Outcomes.{count_of, equal, first_of, is_empty, last_of, order, range_at};
ghost use Rattle.outcomes.specs.Sets.{if_set, if_sets};

use crate::plain_set;
use answers::Refusal;
use key::{Entry, RangeKind};
use outcomes::Stored;
use std::cmp::Ordering;

// Whether nothing is held.
pub fn is_empty(kind: RangeKind, m: &Stored) -> Result<bool, Refusal>
    ensures { result ≡ if_set m.now
        (is_empty (kind_of kind) m.now) Err }
{
    plain_set(m)?;
    map_ops::list::is_empty(kind, m)
}

// How many ranges are held.
pub fn len(kind: RangeKind, m: &Stored) -> Result<usize, Refusal>
    ensures { result ≡ if_set m.now
        (count_of (kind_of kind) m.now) Err }
{
    // It has a name so that this line is no other's: an edit of must-fail/ changes it.
    let _set = plain_set(m)?;
    map_ops::list::len(kind, m)
}

// The range at a place.
pub fn range_at(kind: RangeKind, m: &Stored, place: usize) -> Result<Option<Entry>, Refusal>
    ensures { result ≡ if_set m.now
        (range_at (kind_of kind) m.now place) Err }
{
    plain_set(m)?;
    map_ops::list::range_at(kind, m, place)
}

// The first range.
pub fn first(kind: RangeKind, m: &Stored) -> Result<Option<Entry>, Refusal>
    ensures { result ≡ if_set m.now
        (first_of (kind_of kind) m.now) Err }
{
    plain_set(m)?;
    map_ops::list::first_range_value(kind, m)
}

// The last range.
pub fn last(kind: RangeKind, m: &Stored) -> Result<Option<Entry>, Refusal>
    ensures { result ≡ if_set m.now
        (last_of (kind_of kind) m.now) Err }
{
    plain_set(m)?;
    map_ops::list::last_range_value(kind, m)
}

// Which of two sets comes first.
pub fn cmp(kind: RangeKind, m: &Stored, other: &Stored) -> Result<Ordering, Refusal>
    ensures { result ≡ if_sets m.now other.now
        (order (kind_of kind) m.now other.now) Err }
{
    plain_set(m)?;
    plain_set(other)?;
    map_ops::list::cmp(kind, m, other)
}

// Whether two sets hold the same ranges.
pub fn eq(kind: RangeKind, m: &Stored, other: &Stored) -> Result<bool, Refusal>
    ensures { result ≡ if_sets m.now other.now
        (equal (kind_of kind) m.now other.now) Err }
{
    plain_set(m)?;
    plain_set(other)?;
    map_ops::list::eq(kind, m, other)
}
