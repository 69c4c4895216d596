// Keys are the i64, both ends included; a range is a start and an end.
// Contracts speak of a key's rank, its place among all keys counted from 0, so that nothing overflows in them.
#![tactic(auto)]

ghost use Rattle.std.specs.Prelude.{◌≡◌, ◌+◌, ◌<◌};
ghost use Rattle.key.specs.InnerDecides.{Decides};
ghost use Rattle.key.specs.Rank.{rank, keys, lesser, greater};
ghost use Rattle.key.specs.Range.{kind_of};

// What is stored beside a range: the type of a value, in every column, parameter and answer.
pub type Value = u8;

// The least key, of rank 0.
pub const LEAST: i64 = i64::MIN;

// The greatest key: no key comes after it.
pub const GREATEST: i64 = i64::MAX;

// The two kinds of range: start..end, and start..=end.
#[derive(Clone, Copy, Debug, PartialEq, Eq)]
pub enum RangeKind {
    HalfOpen,
    Inclusive,
}

// The start and the end of a range, of either kind.
#[derive(Clone, Copy, Debug, PartialEq, Eq)]
pub struct Bounds {
    pub start: i64,
    pub end: i64,
}

// A range and its value.
#[derive(Clone, Copy, Debug, PartialEq, Eq)]
pub struct Entry {
    pub start: i64,
    pub end: i64,
    pub value: Value,
}

// The lesser of two keys.
pub fn min(a: i64, b: i64) -> i64
    ensures { result ≡ lesser a b }
{
    a.min(b)
}

// The greater of two keys.
pub fn max(a: i64, b: i64) -> i64
    ensures { result ≡ greater a b }
{
    a.max(b)
}

// The next key, after any but the greatest.
pub fn next(a: i64) -> i64
    requires { rank a + 1 < keys }
    ensures { rank result ≡ rank a + 1 }
{
    a + 1
}

// The key before, of any but the least.
pub fn prev(a: i64) -> i64
    requires { 0 < rank a }
    ensures { rank result + 1 ≡ rank a }
{
    a - 1
}

// The rank itself. The negative keys come first, so a difference of two ranks never wraps.
pub fn rank_of(a: i64) -> u64
    ensures { result ≡ rank a }
{
    if a < 0 {
        return (a - LEAST) as u64;
    }
    a as u64 + 9223372036854775808
}

// Whether a range has a key: it is neither empty nor reversed. Whether a key lies before an end is the same question.
pub fn full(kind: RangeKind, start: i64, end: i64) -> bool
    ensures { Decides result (rank start < (kind_of kind).past end) }
{
    match kind {
        RangeKind::HalfOpen => start < end,
        RangeKind::Inclusive => start <= end,
    }
}

// The first key after a range. One is added to an inclusive end, so a later key must be known: the greatest key may be an end.
pub fn after(kind: RangeKind, end: i64) -> i64
    requires { (kind_of kind).past end < keys }
    ensures { rank result ≡ (kind_of kind).past end }
{
    match kind {
        RangeKind::HalfOpen => end,
        RangeKind::Inclusive => end + 1,
    }
}

// The end of a range that goes up to a key, without it.
pub fn end_before(kind: RangeKind, key: i64) -> i64
    requires { 0 < rank key }
    ensures { result ≡ (kind_of kind).ending (rank key) }
{
    match kind {
        RangeKind::HalfOpen => key,
        RangeKind::Inclusive => key - 1,
    }
}
