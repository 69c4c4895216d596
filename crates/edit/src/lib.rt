// Insert and remove in a map of either kind that is well formed: the unchecked doors. A plan says which places go and which ranges come, and one
// function carries it out; nothing is written before the answer is known. An insert and a remove are one change: a value comes, or none does.
// The kinds differ in three places, all of the keys: `full`, `after`, `end_before`.
#![tactic(auto)]

mod plan;
mod sides;

ghost use Rattle.std.specs.Prelude.{◌≡◌, ◌<◌, ◌≤◌, length};
ghost use Rattle.std.proofs.Math.Option.{some, none};
ghost use Rattle.key.specs.Range.{kind_of};
ghost use Rattle.outcomes.specs.Stored.{places, Sound};
ghost use Rattle.outcomes.specs.Outcomes.{edit_sound};
ghost use Rattle.outcomes.specs.InnerOutcome.{Leaves};
ghost use Rattle.edit.specs.InnerPlan.{HasKey, Meets, Overlaid, Planned, asked, placed};

use answers::Refusal;
use key::{Entry, RangeKind, Value, full};
use outcomes::Stored;
use splice::Replacement;
use store::search::reaching;
use store::walk::first_past;

// What is asked: the instants of a range get the new value, or where there is none they get none.
#[derive(Clone, Copy)]
pub struct Change {
    pub start: i64,
    pub end: i64,
    pub new: Option<Value>,
}

// The places from `from` up to `to` are those that a change meets or touches. A range that ends with `below` just touches it, and so does one that
// starts at `above`: there old ranges are cut.
#[derive(Clone, Copy)]
pub struct Met {
    pub from: usize,
    pub to: usize,
    pub below: i64,
    pub above: i64,
}

// The places that a change meets or touches: from the first that ends no earlier than the least end that touches it, up to the first that
// starts later than the greatest start that does.
fn touched(kind: RangeKind, m: &Stored, change: Change) -> Met
    requires { Sound (kind_of kind) m.now × HasKey (kind_of kind) change }
    ensures { Meets (kind_of kind) m.now change result }
{
    let below = crate::sides::least_end(kind, change.start);
    let above = crate::sides::greatest_start(kind, change.end);
    let from = reaching(RangeKind::Inclusive, &m.ends, m.count, below);
    let to = first_past(RangeKind::Inclusive, &m.starts, from, m.count, above);
    Met {
        from,
        to,
        below,
        above,
    }
}

// The range that comes, if a value does.
fn placed(start: i64, end: i64, new: Option<Value>) -> Option<Entry>
    ensures { result ≡ placed start end new }
{
    Some(Entry {
        start,
        end,
        value: new?,
    })
}

// The plan of a change that meets or touches some place: what goes beyond it on either side is joined or kept.
fn plan_over(m: &Stored, met: Met, change: Change) -> Replacement
    requires { (met.from < met.to) × (met.to ≤ length m.now.starts) × (met.to ≤ length m.now.ends) × (met.to ≤ length m.now.values) }
    ensures { Overlaid m.now.starts m.now.ends m.now.values met change result }
{
    let start = change.start;
    let end = change.end;
    let first = m.starts[met.from];
    let first_value = m.values[met.from];
    let last = m.ends[met.to - 1];
    let last_value = m.values[met.to - 1];
    let left = crate::sides::join_or_keep(first < start, first_value, change, start, first);
    let right = crate::sides::join_or_keep(end < last, last_value, change, end, last);
    let before = Entry {
        start: first,
        end: met.below,
        value: first_value,
    };
    let after = Entry {
        start: met.above,
        end: last,
        value: last_value,
    };
    crate::plan::bring(
        met,
        left.kept.then_some(before),
        placed(left.key, right.key, change.new),
        right.kept.then_some(after),
    )
}

// The plan of a change.
fn plan_of(kind: RangeKind, m: &Stored, change: Change) -> Replacement
    requires { Sound (kind_of kind) m.now × HasKey (kind_of kind) change }
    ensures { Planned (kind_of kind) m.now change result }
{
    let met = touched(kind, m, change);
    if met.from < met.to {
        return plan_over(m, met, change);
    }
    let new = placed(change.start, change.end, change.new);
    crate::plan::bring(met, None, new, None)
}

// Gives the value to each instant of the range and to no other; where none comes, uncovers exactly these.
fn edit(kind: RangeKind, m: &mut Stored, change: Change) -> Result<(), Refusal>
    requires { Sound (kind_of kind) m.old }
    ensures { Leaves result m.new (edit_sound (kind_of kind) places m.old change.start change.end (asked change)) }
{
    if !full(kind, change.start, change.end) {
        return Err(Refusal::EmptyRange);
    }
    let plan = plan_of(kind, m, change);
    crate::plan::carry_out(
        &mut m.count,
        &mut m.starts,
        &mut m.ends,
        &mut m.values,
        plan,
    )
}

// Gives the value to each instant of the range and to no other.
pub fn insert(
    kind: RangeKind,
    m: &mut Stored,
    start: i64,
    end: i64,
    value: Value,
) -> Result<(), Refusal>
    requires { Sound (kind_of kind) m.old }
    ensures { Leaves result m.new (edit_sound (kind_of kind) places m.old start end (some value)) }
{
    let new = Some(value);
    edit(kind, m, Change { start, end, new })
}

// Uncovers exactly the instants of the range.
pub fn remove(kind: RangeKind, m: &mut Stored, start: i64, end: i64) -> Result<(), Refusal>
    requires { Sound (kind_of kind) m.old }
    ensures { Leaves result m.new (edit_sound (kind_of kind) places m.old start end none) }
{
    let new = None;
    edit(kind, m, Change { start, end, new })
}
