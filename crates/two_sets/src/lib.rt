// What the walks over two sets share, for either kind of range. A walk has no branch that depends on the keys: what would be a branch is a choice
// of two values, since no processor foresees which of two sets comes next.
#![tactic(auto)]

ghost use Rattle.std.specs.Prelude.{◌≡◌, true, ◌&&◌, cond, ◌+◌, ◌≤◌, ltb};
ghost use Rattle.key.specs.Rank.{rank};
ghost use Rattle.key.specs.Range.{kind_of};
ghost use Rattle.key.specs.InnerDecides.{Decides};
ghost use Rattle.outcomes.specs.Sets.{formed_set, SoundSet};
ghost use Rattle.two_sets.specs.InnerKind.{wide};

use key::{RangeKind, full};
use outcomes::Stored;
use store::plain::is_set;

// Where a walk is: the first `at` places are written, it is at places `i` and `j` of the two sets, and the range from `start` to `end` is open.
#[derive(Clone, Copy)]
pub struct Position {
    pub at: usize,
    pub i: usize,
    pub j: usize,
    pub start: i64,
    pub end: i64,
}

// Whether two lent sets are as they must be: the first is checked, then the second.
pub fn are_sets(kind: RangeKind, a: &Stored, b: &Stored) -> bool
    ensures value { result ≡ (formed_set (kind_of kind) a.now
        && formed_set (kind_of kind) b.now) }
    ensures sound_set { result ≡ true → SoundSet (kind_of kind) a.now
        × SoundSet (kind_of kind) b.now }
{
    is_set(kind, a) && is_set(kind, b)
}

// Whether a range from `start` to `end` has a key, as an equation: the walks compute with it.
pub fn meets(kind: RangeKind, start: i64, end: i64) -> bool
    ensures { result ≡ ltb (rank start) (wide kind + rank end) }
{
    full(kind, start, end)
}

// How far past its end a range reaches: 1 if the end is in it.
pub fn width(kind: RangeKind) -> u64
    ensures { result ≡ wide kind }
{
    match kind {
        RangeKind::HalfOpen => 0,
        RangeKind::Inclusive => 1,
    }
}

// One of two keys.
pub fn pick(yes: bool, a: i64, b: i64) -> i64
    ensures { rank result ≡ cond yes (rank a) (rank b) }
{
    if yes { a } else { b }
}

// Whether there is room for as many ranges as two sets have together. Then none need be counted.
pub fn roomy(count_a: usize, count_b: usize, room: usize) -> bool
    ensures { Decides result (count_a + count_b ≤ room) }
{
    count_a <= room && count_b <= room - count_a
}
