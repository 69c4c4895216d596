// The relations of half-open ranges, start..end, for C and Rust.
// Each names its kind, since C has a function of its own for each kind.
ghost use Rattle.relations.specs.Promises.{RangeContains, RangeOverlaps, RangeTouches, RangeIntersect};

use crate::{Intersected, Related, contains, intersect, overlaps, touches};
use key::{Bounds, RangeKind};

// Whether the key is in start..end.
pub fn range_contains(start: i64, end: i64, key: i64) -> Related
    ensures { RangeContains start end key result }
{
    let range = Bounds { start, end };
    Related::from(contains(RangeKind::HalfOpen, range, key))
}

// Whether a key is in both ranges.
pub fn range_overlaps(start: i64, end: i64, other_start: i64, other_end: i64) -> Related
    ensures { RangeOverlaps start end other_start other_end result }
{
    let range = Bounds { start, end };
    let other = Bounds {
        start: other_start,
        end: other_end,
    };
    Related::from(overlaps(RangeKind::HalfOpen, range, other))
}

// Whether nothing lies between the two ranges; so ranges that overlap touch too.
pub fn range_touches(start: i64, end: i64, other_start: i64, other_end: i64) -> Related
    ensures { RangeTouches start end other_start other_end result }
{
    let range = Bounds { start, end };
    let other = Bounds {
        start: other_start,
        end: other_end,
    };
    Related::from(touches(RangeKind::HalfOpen, range, other))
}

// The keys of both ranges, from the greater start to the lesser end, or 5.
pub fn range_intersect(start: i64, end: i64, other_start: i64, other_end: i64) -> Intersected
    ensures { RangeIntersect start end other_start other_end result }
{
    let range = Bounds { start, end };
    let other = Bounds {
        start: other_start,
        end: other_end,
    };
    Intersected::from(intersect(RangeKind::HalfOpen, range, other))
}
