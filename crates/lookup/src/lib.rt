// Lookup in a map of either kind. These are the unchecked doors: they check nothing. From map.rs and inclusive_map.rs of rangemap.
// The kinds differ in two places: whether an end is in its range (`reaching`, of the search), and whether a range from one key to another is
// empty (`full`, of the keys).
#![tactic(auto)]

ghost use Rattle.std.specs.Prelude.{◌≡◌, ◌≤◌, cond, length, ltb, None, Some};
ghost use Rattle.span.specs.Operations.{holds};
ghost use Rattle.key.specs.Rank.{rank};
ghost use Rattle.key.specs.Range.{kind_of};
ghost use Rattle.outcomes.specs.Lent.{of_ref};
ghost use Rattle.outcomes.specs.Stored.{ranges, Sound};
ghost use Rattle.outcomes.specs.Outcomes.{range_at_sound, first_place, lookup_sound, contains_sound, overlaps_sound, overlapping_sound};

use answers::Refusal;
use key::{Entry, RangeKind, full};
use outcomes::{Part, StoredRef};
use store::search::reaching;
use store::walk::first_past;

// The range and the value at a place. The kind of range is no matter here.
pub fn range_at(m: &StoredRef, place: usize) -> Result<Option<Entry>, Refusal>
    requires { (m.now.count ≤ length m.now.starts.now) × (m.now.count ≤ length m.now.ends.now) × (m.now.count ≤ length m.now.values.now) }
    ensures { result ≡ range_at_sound (of_ref m.now) place }
{
    if place >= m.count {
        return Ok(None);
    }
    Ok(Some(Entry {
        start: m.starts[place],
        end: m.ends[place],
        value: m.values[place],
    }))
}

// The place of the range that holds the key, if one does.
fn place_of(kind: RangeKind, m: &StoredRef, key: i64) -> Option<usize>
    requires { Sound (kind_of kind) (of_ref m.now) }
    ensures { let p = first_place (holds (rank key)) (ranges (kind_of kind) (of_ref m.now)) in result ≡ cond (ltb p m.now.count) (Some p) None }
{
    let place = reaching(kind, m.ends, m.count, key);
    if place < m.count && m.starts[place] <= key {
        return Some(place);
    }
    None
}

// The range that holds the key, and its value.
pub fn get_key_value(kind: RangeKind, m: &StoredRef, key: i64) -> Result<Option<Entry>, Refusal>
    requires { Sound (kind_of kind) (of_ref m.now) }
    ensures { result ≡ lookup_sound (kind_of kind) (of_ref m.now) key }
{
    match place_of(kind, m, key) {
        Some(place) => range_at(m, place),
        None => Ok(None),
    }
}

// Whether some range holds the key.
pub fn contains_key(kind: RangeKind, m: &StoredRef, key: i64) -> Result<bool, Refusal>
    requires { Sound (kind_of kind) (of_ref m.now) }
    ensures { result ≡ contains_sound (kind_of kind) (of_ref m.now) key }
{
    Ok(place_of(kind, m, key).is_some())
}

// Whether some range has a key of the query. The first that is not past at `start` has one, or none has.
pub fn overlaps(kind: RangeKind, m: &StoredRef, start: i64, end: i64) -> Result<bool, Refusal>
    requires { Sound (kind_of kind) (of_ref m.now) }
    ensures { result ≡ overlaps_sound (kind_of kind) (of_ref m.now) start end }
{
    if !full(kind, start, end) {
        return Err(Refusal::EmptyRange);
    }
    let place = reaching(kind, m.ends, m.count, start);
    Ok(place < m.count && full(kind, m.starts[place], end))
}

// Which consecutive part of the places has keys of the query: place 0 and count 0 if none has.
pub fn overlapping(kind: RangeKind, m: &StoredRef, start: i64, end: i64) -> Result<Part, Refusal>
    requires { Sound (kind_of kind) (of_ref m.now) }
    ensures { result ≡ overlapping_sound (kind_of kind) (of_ref m.now) start end }
{
    if !full(kind, start, end) {
        return Err(Refusal::EmptyRange);
    }
    let first = reaching(kind, m.ends, m.count, start);
    let next = first_past(kind, m.starts, first, m.count, end);
    if next == first {
        return Ok(Part { place: 0, count: 0 });
    }
    Ok(Part {
        place: first,
        count: next - first,
    })
}
