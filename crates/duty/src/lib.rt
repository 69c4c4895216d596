// The seconds of each duty in a window of a half-open map, from one key up to another. They are counted by status, and then gathered.
#![tactic(auto)]

ghost use Rattle.std.specs.Prelude.{◌≡◌, ◌+◌, ◌-◌, ◌≤◌, ◌<◌, min, max, length, get_or};
ghost use Rattle.key.specs.InnerDecides.{Decides};
ghost use Rattle.key.specs.Rank.{rank};
ghost use Rattle.key.specs.Range.{half_open};
ghost use Rattle.outcomes.specs.Stored.{Sound, ranges};
ghost use Rattle.outcomes.specs.Lent.{of_ref};
ghost use Rattle.store.specs.InnerSearch.{Reached};
ghost use Rattle.duty.specs.Duty.{is_status, tally_sound};
ghost use Rattle.duty.specs.InnerWalk.{u32_limit, table_length, gathering, tally_sum, completing, walk_finds};
ghost use Rattle.duty.specs.InnerCounting.{Statuses, Met, EachApart, Inside, part};
ghost use Rattle.duty.specs.InnerCounting.{no_seconds, credited, Both, Joined, TableRoom, Added};

use answers::Refusal;
use key::{Bounds, RangeKind, Value};
use outcomes::StoredRef;
use store::search::{first_past, reaching};

// The seconds of each duty, and those that are unrecorded.
#[derive(Clone, Copy, Debug, PartialEq, Eq)]
pub struct Totals {
    pub off_duty: u32,
    pub sleeper_berth: u32,
    pub driving: u32,
    pub on_duty: u32,
    pub unrecorded: u32,
}

// The statuses, by the values that stand for them. What a map stores stays a number: the C interface lends bytes, of which not all are statuses.
#[derive(Clone, Copy, Debug, PartialEq, Eq)]
enum Status {
    OffDuty = 1,
    SleeperBerth = 2,
    Driving = 3,
    OnDuty = 4,
}

// How long a table of seconds by status is. The last status is 4, and 0 is none.
const TABLE_LENGTH: usize = 5;

// The seconds of the four duties.
#[derive(Clone, Copy, Debug, PartialEq, Eq)]
struct Tally {
    off_duty: u32,
    sleeper_berth: u32,
    driving: u32,
    on_duty: u32,
}

// The seconds from one key up to another. They are few, so the difference of the keys never wraps.
fn seconds(from: i64, to: i64) -> u32
    requires { (rank from ≤ rank to) × (rank to - rank from < u32_limit) }
    ensures { result ≡ rank to - rank from }
{
    (to - from) as u32
}

// The seconds of the range first..last that lie in the window.
fn shared(first: i64, last: i64, window: Bounds) -> u32
    requires { (max (rank first) (rank window.start) ≤ min (rank last) (rank window.end))
        × (rank window.end - rank window.start < u32_limit) }
    ensures { result ≡ min (rank last) (rank window.end) - max (rank first) (rank window.start) }
{
    seconds(first.max(window.start), last.min(window.end))
}

// Whether a value is a status.
#[tactic(auto, using(crate::proofs::ByStatus::status_of))]
fn is_status(value: Value) -> bool
    ensures { result ≡ is_status value }
{
    Status::OffDuty as Value <= value && value <= Status::OnDuty as Value
}

// Whether the values from the place `from` up to the place `to` are all statuses. With no early return the loop takes several places at a time.
fn statuses(values: &[Value], from: usize, to: usize) -> bool
    requires { (from ≤ to) × (to ≤ length values.now) }
    ensures { Decides result (Statuses values.now from to) }
{
    let mut all = true;
    for value in &values[from..to] {
        all &= is_status(*value);
    }
    all
}

// Adds seconds to the status `value`, in a table of seconds by status.
fn credit(t: &mut [u32; TABLE_LENGTH], value: Value, n: u32)
    requires { (value < table_length) × (get_or t.old value 0 + n < u32_limit) }
    ensures { t.new ≡ credited t.old value n }
{
    let status = value as usize;
    t[status] += n;
}

// Two tables as one.
fn joined(t: [u32; TABLE_LENGTH], u: [u32; TABLE_LENGTH]) -> [u32; TABLE_LENGTH]
    requires { Both t u }
    ensures { Joined t u result }
{
    std::array::from_fn(|s| t[s] + u[s])
}

// A table, and the seconds of the places from `from` up to `to` that lie in the window.
fn clipped(
    table: [u32; TABLE_LENGTH],
    m: &StoredRef,
    from: usize,
    to: usize,
    window: Bounds,
) -> [u32; TABLE_LENGTH]
    requires { Met (of_ref m.now) window from to × Statuses m.now.values.now from to
        × TableRoom window (part (of_ref m.now) from to) table }
    ensures { Added window (part (of_ref m.now) from to) table result }
{
    let mut t = table;
    for k in from..to {
        let n = shared(m.starts[k], m.ends[k], window);
        credit(&mut t, m.values[k], n);
    }
    t
}

// The same where none of the places begins before the window: all but the last lie there whole.
// They are taken two at a time, each into a table of its own, so that no sum waits for the one before it.
fn whole(
    table: [u32; TABLE_LENGTH],
    m: &StoredRef,
    from: usize,
    to: usize,
    window: Bounds,
) -> [u32; TABLE_LENGTH]
    requires { Met (of_ref m.now) window from to × Statuses m.now.values.now from to
        × EachApart (of_ref m.now) from to × Inside (of_ref m.now) window from to
        × TableRoom window (part (of_ref m.now) from to) table }
    ensures { Added window (part (of_ref m.now) from to) table result }
{
    let mut t = table;
    let mut u = [0; TABLE_LENGTH];
    let mut k = from;
    // A `for` would have to count the pairs first, and find the place after them again.
    while k + 2 < to {
        let n = seconds(m.starts[k], m.ends[k]);
        credit(&mut t, m.values[k], n);
        let next = k + 1;
        let o = seconds(m.starts[next], m.ends[next]);
        credit(&mut u, m.values[next], o);
        k += 2;
    }
    clipped(joined(t, u), m, k, to, window)
}

// The seconds by status of the places from `from` up to `to`, which meet the window. Only the first can begin before it.
fn table_of(m: &StoredRef, from: usize, to: usize, window: Bounds) -> [u32; TABLE_LENGTH]
    requires { Met (of_ref m.now) window from to × Statuses m.now.values.now from to
        × EachApart (of_ref m.now) from to × TableRoom window (part (of_ref m.now) from to) no_seconds }
    ensures { Added window (part (of_ref m.now) from to) no_seconds result }
{
    let t = [0; TABLE_LENGTH];
    if from == to {
        return t;
    }
    let second = from + 1;
    let first = clipped(t, m, from, second, window);
    whole(first, m, second, to, window)
}

// The four totals of a table of seconds by status. The promise sums over the statuses that pass each total's test.
// The code names them, so that nothing is tested at run time.
fn gathered(t: [u32; TABLE_LENGTH]) -> Tally
    ensures { result ≡ gathering t }
{
    Tally {
        off_duty: t[Status::OffDuty as usize],
        sleeper_berth: t[Status::SleeperBerth as usize],
        driving: t[Status::Driving as usize],
        on_duty: t[Status::OnDuty as usize],
    }
}

// A tally, and what is left of the window as unrecorded.
fn completed(t: Tally, seconds: u32) -> Totals
    requires { tally_sum t ≤ seconds }
    ensures { result ≡ completing t seconds }
{
    let recorded = t.off_duty + t.sleeper_berth + t.driving + t.on_duty;
    Totals {
        off_duty: t.off_duty,
        sleeper_berth: t.sleeper_berth,
        driving: t.driving,
        on_duty: t.on_duty,
        unrecorded: seconds - recorded,
    }
}

// The four totals of the window, none if a strange status is there.
// Each range from the place `from` on ends past the window's start, so those that begin before its end meet it.
fn walk(m: &StoredRef, from: usize, window: Bounds) -> Option<Tally>
    requires { Sound half_open (of_ref m.now) × Reached half_open m.now.count m.now.ends.now window.start from
        × (rank window.start < rank window.end) × (rank window.end - rank window.start < u32_limit) }
    ensures { result ≡ walk_finds (rank window.start) (rank window.end) (ranges half_open (of_ref m.now)) }
{
    let to = first_past(RangeKind::HalfOpen, m.starts, from, m.count, window.end);
    if !statuses(m.values, from, to) {
        return None;
    }
    Some(gathered(table_of(m, from, to, window)))
}

// THE SECONDS of each duty in the window, and those that are unrecorded: 10 if a status outside 1 to 4 is there.
pub fn between(m: &StoredRef, window: Bounds) -> Result<Totals, Refusal>
    requires { Sound half_open (of_ref m.now)
        × (rank window.start < rank window.end) × (rank window.end - rank window.start < u32_limit) }
    ensures { result ≡ tally_sound (of_ref m.now) window.start window.end }
{
    let from = reaching(RangeKind::HalfOpen, m.ends, m.count, window.start);
    let t = walk(m, from, window).ok_or(Refusal::BadStatus)?;
    Ok(completed(t, seconds(window.start, window.end)))
}
