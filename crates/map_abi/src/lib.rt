// The functions of a map of either kind with their answers as structs of numbers: what C and Rust see. The functions of
// `map` and `inclusive_map` name their kind and lend the map that their struct holds to these.
#![tactic(auto)]

ghost use Rattle.std.specs.Prelude.{◌≡◌, true, length};
ghost use Rattle.key.specs.Range.{kind_of};
ghost use Rattle.std.proofs.Math.Option.{some, none};
ghost use Rattle.outcomes.specs.Stored.{places, Sound, stored};
ghost use Rattle.outcomes.specs.Numbers.{asked_in_c, counted_in_c, found_in_c, part_in_c, compared_in_c};
ghost use Rattle.outcomes.specs.Outcomes.{Listed, contains, count_of, edit_sound, equal, first_of, formed, lookup_sound, gaps, insert, is_empty, last_of, leaving, lookup, overlaps, order, overlapping, range_at, remove, gaps_sound};

use key::{RangeKind, Value};
use outcomes::{Count, Order, Range, Stored, Stretch, Told, number_of};

pub fn is_empty(kind: RangeKind, m: &Stored) -> Told
    ensures { result ≡ asked_in_c (is_empty (kind_of kind) m.now) }
{
    Told::from(map_ops::list::is_empty(kind, m))
}

pub fn len(kind: RangeKind, m: &Stored) -> Count
    ensures { result ≡ counted_in_c (count_of (kind_of kind) m.now) }
{
    Count::from(map_ops::list::len(kind, m))
}

pub fn range_at(kind: RangeKind, m: &Stored, place: usize) -> Range
    ensures { result ≡ found_in_c (range_at (kind_of kind) m.now place) }
{
    Range::from(map_ops::list::range_at(kind, m, place))
}

pub fn first_range_value(kind: RangeKind, m: &Stored) -> Range
    ensures { result ≡ found_in_c (first_of (kind_of kind) m.now) }
{
    Range::from(map_ops::list::first_range_value(kind, m))
}

pub fn last_range_value(kind: RangeKind, m: &Stored) -> Range
    ensures { result ≡ found_in_c (last_of (kind_of kind) m.now) }
{
    Range::from(map_ops::list::last_range_value(kind, m))
}

pub fn get_key_value(kind: RangeKind, m: &Stored, key: i64) -> Range
    ensures { result ≡ found_in_c (lookup (kind_of kind) m.now key) }
{
    Range::from(map_ops::find::get_key_value(kind, m, key))
}

pub fn contains_key(kind: RangeKind, m: &Stored, key: i64) -> Told
    ensures { result ≡ asked_in_c (contains (kind_of kind) m.now key) }
{
    Told::from(map_ops::find::contains_key(kind, m, key))
}

pub fn overlaps(kind: RangeKind, m: &Stored, start: i64, end: i64) -> Told
    ensures { result ≡ asked_in_c (overlaps (kind_of kind) m.now start end) }
{
    Told::from(map_ops::find::overlaps(kind, m, start, end))
}

pub fn overlapping(kind: RangeKind, m: &Stored, start: i64, end: i64) -> Stretch
    ensures { result ≡ part_in_c (overlapping (kind_of kind) m.now start end) }
{
    Stretch::from(map_ops::find::overlapping(kind, m, start, end))
}

// Compiled into each door, as `map_ops::find::gaps` is.
#[inline(always)]
pub fn gaps(
    kind: RangeKind,
    m: &Stored,
    start: i64,
    end: i64,
    out_starts: &mut [i64],
    out_ends: &mut [i64],
) -> Count
    ensures { Listed result out_starts.new out_ends.new
        (gaps (kind_of kind) m.now start end out_starts.old out_ends.old) }
{
    Count::from(map_ops::find::gaps(kind, m, start, end, out_starts, out_ends))
}

pub fn eq(kind: RangeKind, m: &Stored, other: &Stored) -> Told
    ensures { result ≡ asked_in_c
        (equal (kind_of kind) m.now other.now) }
{
    Told::from(map_ops::list::eq(kind, m, other))
}

pub fn cmp(kind: RangeKind, m: &Stored, other: &Stored) -> Order
    ensures { result ≡ compared_in_c
        (order (kind_of kind) m.now other.now) }
{
    Order::from(map_ops::list::cmp(kind, m, other))
}

pub fn insert(kind: RangeKind, m: &mut Stored, start: i64, end: i64, value: Value) -> u8
    ensures { leaving result m.new
        ≡ insert (kind_of kind) m.old start end value }
{
    number_of(map_ops::change::insert(kind, m, start, end, value))
}

pub fn remove(kind: RangeKind, m: &mut Stored, start: i64, end: i64) -> u8
    ensures { leaving result m.new
        ≡ remove (kind_of kind) m.old start end }
{
    number_of(map_ops::change::remove(kind, m, start, end))
}

pub fn well_formed(kind: RangeKind, m: &Stored) -> bool
    ensures { (result ≡ formed (kind_of kind) m.now)
        × (result ≡ true → Sound (kind_of kind) m.now × (length m.now.starts ≡ places)) }
{
    store::check::well_formed(kind, m)
}

// The unchecked doors: the map must be well formed.
pub fn get_key_value_unchecked(kind: RangeKind, m: &Stored, key: i64) -> Range
    requires { Sound (kind_of kind) m.now }
    ensures { result ≡ found_in_c (lookup_sound (kind_of kind) m.now key) }
{
    Range::from(lookup::get_key_value(kind, &m.lent(), key))
}

// Compiled into each door, as `map_ops::find::gaps` is.
#[inline(always)]
pub fn gaps_unchecked(
    kind: RangeKind,
    m: &Stored,
    start: i64,
    end: i64,
    out_starts: &mut [i64],
    out_ends: &mut [i64],
) -> Count
    requires { Sound (kind_of kind) m.now }
    ensures { Listed result out_starts.new out_ends.new
        (gaps_sound (kind_of kind) m.now start end out_starts.old out_ends.old) }
{
    Count::from(gaps::gaps(kind, &m.lent(), start, end, out_starts, out_ends))
}

pub fn insert_unchecked(kind: RangeKind, m: &mut Stored, start: i64, end: i64, value: Value) -> u8
    requires { Sound (kind_of kind) m.old }
    ensures { leaving result m.new
        ≡ edit_sound (kind_of kind) places m.old start end (some value) }
{
    number_of(edit::insert(kind, m, start, end, value))
}

pub fn remove_unchecked(kind: RangeKind, m: &mut Stored, start: i64, end: i64) -> u8
    requires { Sound (kind_of kind) m.old }
    ensures { leaving result m.new
        ≡ edit_sound (kind_of kind) places m.old start end none }
{
    number_of(edit::remove(kind, m, start, end))
}
