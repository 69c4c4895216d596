// The relations of inclusive ranges, start..=end, for C and Rust.
// Each names its kind, since C has a function of its own for each kind.
ghost use Rattle.relations.specs.Promises.{RangeInclusiveContains, RangeInclusiveOverlaps, RangeInclusiveTouches, RangeInclusiveIntersect};

use crate::{Intersected, Related, contains, intersect, overlaps, touches};
use key::{Bounds, RangeKind};

// Whether the key is in start..=end.
pub fn range_inclusive_contains(start: i64, end: i64, key: i64) -> Related
    ensures { RangeInclusiveContains start end key result }
{
    let range = Bounds { start, end };
    Related::from(contains(RangeKind::Inclusive, range, key))
}

// Whether a key is in both ranges.
pub fn range_inclusive_overlaps(start: i64, end: i64, other_start: i64, other_end: i64) -> Related
    ensures { RangeInclusiveOverlaps start end other_start other_end result }
{
    let range = Bounds { start, end };
    let other = Bounds {
        start: other_start,
        end: other_end,
    };
    Related::from(overlaps(RangeKind::Inclusive, range, other))
}

// Whether nothing lies between the two ranges; so ranges that overlap touch too.
pub fn range_inclusive_touches(start: i64, end: i64, other_start: i64, other_end: i64) -> Related
    ensures { RangeInclusiveTouches start end other_start other_end result }
{
    let range = Bounds { start, end };
    let other = Bounds {
        start: other_start,
        end: other_end,
    };
    Related::from(touches(RangeKind::Inclusive, range, other))
}

// The keys of both ranges, from the greater start to the lesser end, or 5.
pub fn range_inclusive_intersect(
    start: i64,
    end: i64,
    other_start: i64,
    other_end: i64,
) -> Intersected
    ensures { RangeInclusiveIntersect start end other_start other_end result }
{
    let range = Bounds { start, end };
    let other = Bounds {
        start: other_start,
        end: other_end,
    };
    Intersected::from(intersect(RangeKind::Inclusive, range, other))
}
