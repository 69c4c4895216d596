// What a change touches, and what it leaves of the first and the last range that it meets or touches.
ghost use Rattle.std.specs.Prelude.{◌≡◌, true};
ghost use Rattle.key.specs.InnerDecides.{Decides};
ghost use Rattle.key.specs.Range.{kind_of};
ghost use Rattle.edit.specs.InnerPlan.{Beside, LeastEnd, GreatestStart, Same, asked};

use crate::Change;
use key::{RangeKind, Value};

// The least end of a range that touches one from `start` on. No key lies before the least.
pub fn least_end(kind: RangeKind, start: i64) -> i64
    ensures { LeastEnd (kind_of kind) start result }
{
    if start == key::LEAST {
        return start;
    }
    key::end_before(kind, start)
}

// The greatest start of a range that touches one that ends with `end`. No key lies after the greatest.
pub fn greatest_start(kind: RangeKind, end: i64) -> i64
    ensures { GreatestStart (kind_of kind) end result }
{
    if end == key::GREATEST {
        return end;
    }
    key::after(kind, end)
}

// Whether a value comes, and is this one.
fn same(old: Value, change: Change) -> bool
    ensures { Decides result (Same old (asked change)) }
{
    change.new == Some(old)
}

// One side of a change: whether a part of the old range there is kept, and the key with which the new range starts or ends there.
#[derive(Clone, Copy)]
pub struct Side {
    pub kept: bool,
    pub key: i64,
}

// An old range that goes beyond the change on a side is joined where the values are equal, and what is beyond is kept where they are not.
// `own` is the change's key on that side, `far` the old range's. Both sides ask this: they differ in the test and the keys alone.
pub fn join_or_keep(beyond: bool, old: Value, change: Change, own: i64, far: i64) -> Side
    ensures { Beside (beyond ≡ true) old (asked change) own far result.kept result.key }
{
    if !beyond {
        return Side {
            kept: false,
            key: own,
        };
    }
    if same(old, change) {
        return Side {
            kept: false,
            key: far,
        };
    }
    Side {
        kept: true,
        key: own,
    }
}
