// A day's report of a half-open map: the day's start and end, the seconds of each duty and the unrecorded ones, and those five as hours.
#![tactic(auto)]

ghost use Rattle.std.specs.Prelude.{◌≡◌};
ghost use Rattle.key.specs.Range.{half_open};
ghost use Rattle.outcomes.specs.Stored.{Sound};
ghost use Rattle.outcomes.specs.Lent.{of_ref};
ghost use Rattle.log_day.specs.Days.{day_of};
ghost use Rattle.report.specs.Report.{day_report_sound, day_report, reported_in_c};

use answers::{DONE, Refusal};
use duty::Totals;
use hours::hours;
use key::{Bounds, RangeKind};
use outcomes::{Stored, StoredRef};
use store::check::well_formed;

// A day that is reported: its start and end, and the seconds of each duty in it.
#[derive(Clone, Copy, Debug, PartialEq, Eq)]
pub struct DayTotals {
    pub day: Bounds,
    pub totals: Totals,
}

// A report as C and Rust see it: answer 0 with all that it says, or 4, 8 or 10.
#[repr(C)]
#[derive(Clone, Copy)]
pub struct DayReport {
    pub answer: u8,
    pub start: i64,
    pub end: i64,
    pub off_duty: u32,
    pub sleeper_berth: u32,
    pub driving: u32,
    pub on_duty: u32,
    pub unrecorded: u32,
    pub off_duty_hours: f64,
    pub sleeper_berth_hours: f64,
    pub driving_hours: f64,
    pub on_duty_hours: f64,
    pub unrecorded_hours: f64,
}

// With its hours. Of a refusal all but the number is 0.
impl From<Result<DayTotals, Refusal>> for DayReport {
    ghost from_gives = { λ a r. r ≡ reported_in_c a };

    #[tactic(auto, using(crate::proofs::Returns::no_hours))]
    fn from(reported: Result<DayTotals, Refusal>) -> DayReport {
        match reported {
            Ok(DayTotals { day, totals: t }) => DayReport {
                answer: DONE,
                start: day.start,
                end: day.end,
                off_duty: t.off_duty,
                sleeper_berth: t.sleeper_berth,
                driving: t.driving,
                on_duty: t.on_duty,
                unrecorded: t.unrecorded,
                off_duty_hours: hours(t.off_duty),
                sleeper_berth_hours: hours(t.sleeper_berth),
                driving_hours: hours(t.driving),
                on_duty_hours: hours(t.on_duty),
                unrecorded_hours: hours(t.unrecorded),
            },
            Err(why) => DayReport {
                answer: why.number(),
                start: 0,
                end: 0,
                off_duty: 0,
                sleeper_berth: 0,
                driving: 0,
                on_duty: 0,
                unrecorded: 0,
                off_duty_hours: 0.0,
                sleeper_berth_hours: 0.0,
                driving_hours: 0.0,
                on_duty_hours: 0.0,
                unrecorded_hours: 0.0,
            },
        }
    }
}

// The report of a well-formed map. The caller answers for the check.
#[tactic(auto, using(crate::proofs::Returns::countable))]
pub fn unchecked(
    m: &StoredRef,
    zone: u8,
    year: u16,
    month: u8,
    day: u8,
) -> Result<DayTotals, Refusal>
    requires { Sound half_open (of_ref m.now) }
    ensures { result ≡ day_report_sound (of_ref m.now) (day_of zone year month day) }
{
    let bounds = log_day::day_of(zone, year, month, day)?;
    let totals = duty::between(m, bounds)?;
    Ok(DayTotals {
        day: bounds,
        totals,
    })
}

// The report of any map.
#[tactic(auto, unfolding(crate::specs::Report::day_report))]
pub fn checked(m: &Stored, zone: u8, year: u16, month: u8, day: u8) -> Result<DayTotals, Refusal>
    ensures { result ≡ day_report m.now zone year month day }
{
    if !well_formed(RangeKind::HalfOpen, m) {
        return Err(Refusal::NotFormed);
    }
    unchecked(&m.lent(), zone, year, month, day)
}

// The same as C and Rust see it.
pub fn day_report(m: &Stored, zone: u8, year: u16, month: u8, day: u8) -> DayReport
    ensures { result ≡ reported_in_c (day_report m.now zone year month day) }
{
    DayReport::from(checked(m, zone, year, month, day))
}

// The same of a well-formed map. The caller answers for the check.
pub fn day_report_unchecked(m: &Stored, zone: u8, year: u16, month: u8, day: u8) -> DayReport
    requires { Sound half_open m.now }
    ensures { result ≡ reported_in_c (day_report_sound m.now (day_of zone year month day)) }
{
    DayReport::from(unchecked(&m.lent(), zone, year, month, day))
}
