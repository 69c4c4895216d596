// A plan is made from what comes, and carried out.
ghost use Rattle.std.specs.Prelude.{◌≡◌, [], suc, ◌≤◌};
ghost use Rattle.outcomes.specs.Stored.{stored};
ghost use Rattle.outcomes.specs.InnerOutcome.{Leaves};
ghost use Rattle.splice.specs.InnerReplace.{Apt};
ghost use Rattle.edit.specs.InnerPlan.{Blank, Brings, coming, in_front, carried, ColumnsOf};

use crate::Met;
use answers::Refusal;
use key::{Entry, Value};
use splice::Replacement;

// A plan by which one more range comes, before the others, if there is one.
fn in_front(part: Option<Entry>, p: Replacement) -> Replacement
    requires { (p.n ≤ 2) × Blank p }
    ensures { Brings result p.from p.to (suc p.n) (in_front part (coming p)) }
{
    match part {
        Some(new) => Replacement {
            from: p.from,
            to: p.to,
            n: p.n + 1,
            x: new,
            y: p.x,
            z: p.y,
        },
        None => p,
    }
}

// The plan by which the new range comes between what is left on the two sides; each of the three only if there is one.
// It is compiled into both its callers: called, it has its ranges in memory, and an edit of an empty map took twice the time.
#[inline(always)]
pub fn bring(met: Met, left: Option<Entry>, new: Option<Entry>, right: Option<Entry>) -> Replacement
    ensures { Brings result met.from met.to 3 (in_front left (in_front new (in_front right []))) }
{
    let unused = Entry {
        start: 0,
        end: 0,
        value: 0,
    };
    let none = Replacement {
        from: met.from,
        to: met.to,
        n: 0,
        x: unused,
        y: unused,
        z: unused,
    };
    let one = in_front(right, none);
    let two = in_front(new, one);
    in_front(left, two)
}

// Carries a plan out, unless the map would need more places than it has. It has the columns, as `splice` has them, so that how many places there are
// is their length and no number.
pub fn carry_out(
    count: &mut usize,
    starts: &mut [i64],
    ends: &mut [i64],
    values: &mut [Value],
    p: Replacement,
) -> Result<(), Refusal>
    requires { ColumnsOf (stored count.old starts.old ends.old values.old) × Apt count.old p }
    ensures { Leaves result (stored count.new starts.new ends.new values.new) (carried (stored count.old starts.old ends.old values.old) p) }
{
    let held = *count;
    let next = p.from + p.n + (held - p.to);
    if starts.len() < next {
        return Err(Refusal::TooMany);
    }
    splice::splice(held, starts, ends, values, p);
    *count = next;
    Ok(())
}
