// The functions of a set of either kind with their answers as structs of numbers: what C and Rust see. The functions of
// `set` and `inclusive_set` name their kind and lend the set that their struct holds to these.
#![tactic(auto)]

ghost use Rattle.answers.specs.Refusals.{number};
ghost use Rattle.std.specs.Prelude.{◌≡◌, true, length, Err};
ghost use Rattle.key.specs.Range.{kind_of};
ghost use Rattle.outcomes.specs.Stored.{places};
ghost use Rattle.outcomes.specs.Numbers.{asked_in_c, counted_in_c, found_in_c, part_in_c, compared_in_c, totalled_in_c};
ghost use Rattle.outcomes.specs.Outcomes.{not_written};
ghost use Rattle.outcomes.specs.Outcomes.{Listed, leaving, is_empty, count_of, range_at, first_of, last_of, lookup, contains, overlaps, overlapping, gaps};
ghost use Rattle.outcomes.specs.Outcomes.{equal, order, insert, remove};
ghost use Rattle.outcomes.specs.Sets.{if_set, if_sets, formed_set, SoundSet, total_of};
ghost use Rattle.operations.specs.InnerOperation.{combined_any};

use key::RangeKind;
use operations::Operation;
use outcomes::{Count, Order, Range, Stored, Stretch, Told, Total, number_of};

pub fn is_empty(kind: RangeKind, m: &Stored) -> Told
    ensures { result ≡ asked_in_c (if_set m.now
        (is_empty (kind_of kind) m.now) Err) }
{
    Told::from(set_ops::stored::is_empty(kind, m))
}

pub fn len(kind: RangeKind, m: &Stored) -> Count
    ensures { result ≡ counted_in_c (if_set m.now
        (count_of (kind_of kind) m.now) Err) }
{
    Count::from(set_ops::stored::len(kind, m))
}

pub fn range_at(kind: RangeKind, m: &Stored, place: usize) -> Range
    ensures { result ≡ found_in_c (if_set m.now
        (range_at (kind_of kind) m.now place) Err) }
{
    Range::from(set_ops::stored::range_at(kind, m, place))
}

pub fn first(kind: RangeKind, m: &Stored) -> Range
    ensures { result ≡ found_in_c (if_set m.now
        (first_of (kind_of kind) m.now) Err) }
{
    Range::from(set_ops::stored::first(kind, m))
}

pub fn last(kind: RangeKind, m: &Stored) -> Range
    ensures { result ≡ found_in_c (if_set m.now
        (last_of (kind_of kind) m.now) Err) }
{
    Range::from(set_ops::stored::last(kind, m))
}

pub fn get(kind: RangeKind, m: &Stored, key: i64) -> Range
    ensures { result ≡ found_in_c (if_set m.now
        (lookup (kind_of kind) m.now key) Err) }
{
    Range::from(set_ops::found::get(kind, m, key))
}

pub fn contains(kind: RangeKind, m: &Stored, key: i64) -> Told
    ensures { result ≡ asked_in_c (if_set m.now
        (contains (kind_of kind) m.now key) Err) }
{
    Told::from(set_ops::found::contains(kind, m, key))
}

pub fn overlaps(kind: RangeKind, m: &Stored, start: i64, end: i64) -> Told
    ensures { result ≡ asked_in_c (if_set m.now
        (overlaps (kind_of kind) m.now start end) Err) }
{
    Told::from(set_ops::found::overlaps(kind, m, start, end))
}

pub fn overlapping(kind: RangeKind, m: &Stored, start: i64, end: i64) -> Stretch
    ensures { result ≡ part_in_c (if_set m.now
        (overlapping (kind_of kind) m.now start end) Err) }
{
    Stretch::from(set_ops::found::overlapping(kind, m, start, end))
}

// Compiled into each door, as `map_ops::find::gaps` is.
#[inline(always)]
pub fn gaps(
    kind: RangeKind,
    m: &Stored,
    start: i64,
    end: i64,
    out_starts: &mut [i64],
    out_ends: &mut [i64],
) -> Count
    ensures { Listed result out_starts.new out_ends.new
        (if_set m.now
        (gaps (kind_of kind) m.now start end out_starts.old out_ends.old)
        (λ why. not_written why out_starts.old out_ends.old)) }
{
    Count::from(set_ops::found::gaps(kind, m, start, end, out_starts, out_ends))
}

pub fn eq(kind: RangeKind, m: &Stored, other: &Stored) -> Told
    ensures { result ≡ asked_in_c (if_sets m.now other.now
        (equal (kind_of kind) m.now other.now) Err) }
{
    Told::from(set_ops::stored::eq(kind, m, other))
}

pub fn cmp(kind: RangeKind, m: &Stored, other: &Stored) -> Order
    ensures { result ≡ compared_in_c (if_sets m.now other.now
        (order (kind_of kind) m.now other.now) Err) }
{
    Order::from(set_ops::stored::cmp(kind, m, other))
}

pub fn insert(kind: RangeKind, m: &mut Stored, start: i64, end: i64) -> u8
    ensures { leaving result m.new
        ≡ if_set m.old (insert (kind_of kind) m.old start end 0)
        (λ why. leaving (number why) m.old) }
{
    number_of(set_ops::changed::insert(kind, m, start, end))
}

pub fn remove(kind: RangeKind, m: &mut Stored, start: i64, end: i64) -> u8
    ensures { leaving result m.new
        ≡ if_set m.old (remove (kind_of kind) m.old start end)
        (λ why. leaving (number why) m.old) }
{
    number_of(set_ops::changed::remove(kind, m, start, end))
}

pub fn well_formed(kind: RangeKind, m: &Stored) -> bool
    ensures { (result ≡ formed_set (kind_of kind) m.now)
        × (result ≡ true → SoundSet (kind_of kind) m.now × (length m.now.starts ≡ places)) }
{
    store::plain::is_set(kind, m)
}

// Intersection and union.
pub fn combine(
    kind: RangeKind,
    operation: Operation,
    m: &Stored,
    other: &Stored,
    out_starts: &mut [i64],
    out_ends: &mut [i64],
) -> Count
    ensures { Listed result out_starts.new out_ends.new (combined_any operation (kind_of kind)
        m.now
        other.now
        out_starts.old out_ends.old) }
{
    Count::from(operations::combine(kind, operation, m, other, out_starts, out_ends))
}

pub fn total(kind: RangeKind, m: &Stored) -> Total
    ensures { result ≡ totalled_in_c (total_of (kind_of kind) m.now) }
{
    Total::from(set_total::total(kind, m))
}
