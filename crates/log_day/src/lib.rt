// Log days: the start and end of a date's day in a zone, as keys.
#![tactic(auto)]

ghost use Rattle.std.specs.Prelude.{◌≡◌, false, true, ◌&&◌, ◌*◌, ◌<◌, ◌≤◌, pos, MatchResult};
ghost use Rattle.calendar.specs.Years.{Known};
ghost use Rattle.log_day.specs.Days.{standard, changes_clock, daylight, offset, midnight, accepted, day_of, day_in_c};
ghost use Rattle.log_day.specs.InnerZones.{zone_number, IsZone, in_ledger};
ghost use Rattle.log_day.specs.Promises.{LogDayPromise};

use answers::{DONE, Refusal};
use calendar::{Date, DayNumber};
use key::Bounds;

// A day as C and Rust see it: answer 0 with start and end, or 8.
#[repr(C)]
#[derive(Clone, Copy, Debug, PartialEq, Eq)]
pub struct LogDay {
    pub answer: u8,
    pub start: i64,
    pub end: i64,
}

// The zones, in the order of their numbers from 0. The clock of the last is fixed.
#[derive(Clone, Copy, Debug, PartialEq, Eq)]
enum TimeZone {
    Eastern,
    Central,
    Mountain,
    Pacific,
    Alaska,
    Hawaii,
    MountainFixed,
}

// The seconds of an hour and of a day of 24 hours.
const HOUR: i64 = 3600;

const DAY: i64 = 24 * HOUR;

// How many zones there are: 0 Eastern, 1 Central, 2 Mountain, 3 Pacific, 4 Alaska, 5 Hawaii, 6 Mountain, fixed.
pub const ZONES: usize = 7;

// The standard offset of each zone, in seconds, in the order of their numbers.
const STANDARD: [i64; ZONES] = [
    -5 * HOUR,
    -6 * HOUR,
    -7 * HOUR,
    -8 * HOUR,
    -9 * HOUR,
    -10 * HOUR,
    -7 * HOUR,
];

// The years of the ledger.
const FIRST_YEAR: u16 = 2007;

const LAST_YEAR: u16 = 2099;

// The zone of a number, where there is one.
impl TryFrom<u8> for TimeZone {
    type Error = Refusal;

    ghost try_from_gives = { IsZone };

    fn try_from(number: u8) -> Result<TimeZone, Refusal> {
        match number {
            0 => Ok(TimeZone::Eastern),
            1 => Ok(TimeZone::Central),
            2 => Ok(TimeZone::Mountain),
            3 => Ok(TimeZone::Pacific),
            4 => Ok(TimeZone::Alaska),
            5 => Ok(TimeZone::Hawaii),
            6 => Ok(TimeZone::MountainFixed),
            _ => Err(Refusal::BadDay),
        }
    }
}

impl TimeZone {
    // Its standard offset, in seconds.
    #[tactic(auto, unfolding(crate::specs::Days::standard))]
    fn standard(self) -> i64
        ensures { result ≡ standard (zone_number self) }
    {
        STANDARD[self as usize]
    }

    // Whether it changes its clock.
    #[tactic(auto, unfolding(crate::specs::Days::changes_clock))]
    fn changes_clock(self) -> bool
        ensures { result ≡ changes_clock (zone_number self) }
    {
        !matches!(self, TimeZone::Hawaii | TimeZone::MountainFixed)
    }
}

// Whether a date's midnight has daylight offset in a zone that changes its clock.
#[tactic(auto, unfolding(crate::specs::Days::daylight))]
fn is_daylight(date: Date) -> bool
    requires { Known date.year × (1 ≤ date.day) }
    ensures { result ≡ daylight date }
{
    let today = calendar::day_number(date);
    calendar::march_sunday(date.year) < today && today <= calendar::november_sunday(date.year)
}

// Whether a date's midnight has daylight offset in a zone.
fn has_daylight(zone: TimeZone, date: Date) -> bool
    requires { Known date.year × (1 ≤ date.day) }
    ensures { result ≡ (changes_clock (zone_number zone) && daylight date) }
{
    zone.changes_clock() && is_daylight(date)
}

// The offset of a date's midnight.
fn offset_of(zone: TimeZone, date: Date) -> i64
    requires { Known date.year × (1 ≤ date.day) }
    ensures { result ≡ offset (zone_number zone) date }
{
    let standard = zone.standard();
    if has_daylight(zone, date) {
        standard + HOUR
    } else {
        standard
    }
}

// The key of a day's midnight at offset 0: the one place where days become seconds.
fn utc_midnight(n: DayNumber) -> i64
    requires { n.0 < 65536 }
    ensures { result ≡ pos (86400 * n.0) }
{
    DAY * i64::from(n.0)
}

// The key of a date's midnight.
fn midnight_of(zone: TimeZone, date: Date) -> i64
    requires { Known date.year × (1 ≤ date.day) }
    ensures { result ≡ midnight (zone_number zone) date }
{
    utc_midnight(calendar::day_number(date)) - offset_of(zone, date)
}

// Whether a date is there, in the years of the ledger.
#[tactic(auto, unfolding(crate::specs::InnerZones::in_ledger))]
fn is_in_ledger(date: Date) -> bool
    ensures { result ≡ in_ledger date }
{
    FIRST_YEAR <= date.year && date.year <= LAST_YEAR && calendar::is_date(date)
}

// The zone of a number, where the zone and the date are accepted.
fn accepted_zone(number: u8, date: Date) -> Result<TimeZone, Refusal>
    ensures { MatchResult result (λ z. (zone_number z ≡ number) × (accepted number date ≡ true))
        (λ why. (why ≡ Refusal.BadDay) × (accepted number date ≡ false)) }
{
    let zone = TimeZone::try_from(number)?;
    if is_in_ledger(date) {
        Ok(zone)
    } else {
        Err(Refusal::BadDay)
    }
}

// The day of a date in a zone, from its start up to its end.
pub fn day_of(zone: u8, year: u16, month: u8, day: u8) -> Result<Bounds, Refusal>
    ensures { result ≡ day_of zone year month day }
{
    let date = Date { year, month, day };
    let there = accepted_zone(zone, date)?;
    let start = midnight_of(there, date);
    let end = midnight_of(there, calendar::next(date));
    Ok(Bounds { start, end })
}

// A day as C and Rust see it.
impl From<Result<Bounds, Refusal>> for LogDay {
    ghost from_gives = { λ d r. r ≡ day_in_c d };

    fn from(d: Result<Bounds, Refusal>) -> LogDay {
        match d {
            Ok(day) => LogDay {
                answer: DONE,
                start: day.start,
                end: day.end,
            },
            Err(why) => LogDay {
                answer: why.number(),
                start: 0,
                end: 0,
            },
        }
    }
}

// THE DAY of a date in a zone: its start and its end, or 8.
pub fn log_day(zone: u8, year: u16, month: u8, day: u8) -> LogDay
    ensures { LogDayPromise zone year month day result }
{
    LogDay::from(day_of(zone, year, month, day))
}
