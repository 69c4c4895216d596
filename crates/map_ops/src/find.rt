// What a map holds at a key and over a range, for either kind: the check of the lent map, and then the unchecked door.
// Any map is taken.
ghost use Rattle.std.specs.Prelude.{◌≡◌};
ghost use Rattle.key.specs.Range.{kind_of};
ghost use Rattle.outcomes.specs.Stored.{stored};
ghost use Rattle.outcomes.specs.Outcomes.{contains, gaps, lookup, overlaps, overlapping};
ghost use Rattle.range_list.specs.InnerLists.{wrote};

use answers::Refusal;
use key::{Entry, RangeKind};
use outcomes::{Part, Stored};
use store::check::checked;

// The range that holds the key, and its value.
#[tactic(auto, unfolding(outcomes::specs::Outcomes::lookup))]
pub fn get_key_value(kind: RangeKind, m: &Stored, key: i64) -> Result<Option<Entry>, Refusal>
    ensures { result ≡ lookup (kind_of kind) m.now key }
{
    checked(kind, m)?;
    lookup::get_key_value(kind, &m.lent(), key)
}

// Whether some range holds the key.
#[tactic(auto, unfolding(outcomes::specs::Outcomes::contains))]
pub fn contains_key(kind: RangeKind, m: &Stored, key: i64) -> Result<bool, Refusal>
    ensures { result ≡ contains (kind_of kind) m.now key }
{
    checked(kind, m)?;
    lookup::contains_key(kind, &m.lent(), key)
}

// Whether some range has a key of the query.
#[tactic(auto, unfolding(outcomes::specs::Outcomes::overlaps))]
pub fn overlaps(kind: RangeKind, m: &Stored, start: i64, end: i64) -> Result<bool, Refusal>
    ensures { result ≡ overlaps (kind_of kind) m.now start end }
{
    checked(kind, m)?;
    lookup::overlaps(kind, &m.lent(), start, end)
}

// Which consecutive stored part meets the query.
#[tactic(auto, unfolding(outcomes::specs::Outcomes::overlapping))]
pub fn overlapping(kind: RangeKind, m: &Stored, start: i64, end: i64) -> Result<Part, Refusal>
    ensures { result ≡ overlapping (kind_of kind) m.now start end }
{
    checked(kind, m)?;
    lookup::overlapping(kind, &m.lent(), start, end)
}

// The maximal uncovered ranges inside the outer range, into the first places of two lent lists.
// It is compiled into each door, where the kind is a constant: else each turn of the walk asks for it, and takes up to three times as long.
#[inline(always)]
#[tactic(auto, unfolding(outcomes::specs::Outcomes::gaps))]
pub fn gaps(
    kind: RangeKind,
    m: &Stored,
    start: i64,
    end: i64,
    out_starts: &mut [i64],
    out_ends: &mut [i64],
) -> Result<usize, Refusal>
    ensures { wrote result out_starts.new out_ends.new
        ≡ gaps (kind_of kind) m.now start end out_starts.old out_ends.old }
{
    // It has a name so that this line is no other's: an edit of must-fail/ changes it.
    let _formed = checked(kind, m)?;
    gaps::gaps(kind, &m.lent(), start, end, out_starts, out_ends)
}
