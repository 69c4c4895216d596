// What a set holds at a key and over a range. Three of the checks have a name so that each line is no other's: edits of must-fail/ change them.
ghost use Rattle.std.specs.Prelude.{◌≡◌, Err};
ghost use Rattle.key.specs.Range.{kind_of};
ghost use Rattle.outcomes.specs.Outcomes.{not_written, contains, gaps, lookup, overlaps, overlapping};
ghost use Rattle.outcomes.specs.Sets.{if_set};
ghost use Rattle.range_list.specs.InnerLists.{wrote};

use crate::plain_set;
use answers::Refusal;
use key::{Entry, RangeKind};
use outcomes::{Part, Stored};

// The range that holds the key.
pub fn get(kind: RangeKind, m: &Stored, key: i64) -> Result<Option<Entry>, Refusal>
    ensures { result ≡ if_set m.now
        (lookup (kind_of kind) m.now key) Err }
{
    let _got_from = plain_set(m)?;
    map_ops::find::get_key_value(kind, m, key)
}

// Whether some range holds the key.
pub fn contains(kind: RangeKind, m: &Stored, key: i64) -> Result<bool, Refusal>
    ensures { result ≡ if_set m.now
        (contains (kind_of kind) m.now key) Err }
{
    plain_set(m)?;
    map_ops::find::contains_key(kind, m, key)
}

// Whether some range has a key of the query.
pub fn overlaps(kind: RangeKind, m: &Stored, start: i64, end: i64) -> Result<bool, Refusal>
    ensures { result ≡ if_set m.now
        (overlaps (kind_of kind) m.now start end) Err }
{
    plain_set(m)?;
    map_ops::find::overlaps(kind, m, start, end)
}

// Which consecutive stored part meets the query.
pub fn overlapping(kind: RangeKind, m: &Stored, start: i64, end: i64) -> Result<Part, Refusal>
    ensures { result ≡ if_set m.now
        (overlapping (kind_of kind) m.now start end) Err }
{
    let _part_of = plain_set(m)?;
    map_ops::find::overlapping(kind, m, start, end)
}

// The maximal uncovered ranges inside the outer range, into the first places of two lent lists. Compiled into each door, as that of maps is.
#[inline(always)]
pub fn gaps(
    kind: RangeKind,
    m: &Stored,
    start: i64,
    end: i64,
    out_starts: &mut [i64],
    out_ends: &mut [i64],
) -> Result<usize, Refusal>
    ensures { wrote result out_starts.new out_ends.new
        ≡ if_set m.now
        (gaps (kind_of kind) m.now start end out_starts.old out_ends.old)
        (λ why. not_written why out_starts.old out_ends.old) }
{
    let _gaps_of = plain_set(m)?;
    map_ops::find::gaps(kind, m, start, end, out_starts, out_ends)
}
