// The Gregorian calendar for the years 1970 to 2100: lengths of months, day numbers since 1970-01-01, and the Sundays on which clocks change.
#![tactic(auto)]

ghost use Rattle.std.specs.Prelude.{◌≡◌, true, ◌*◌, ◌≤◌, ◌<◌};
ghost use Rattle.calendar.specs.Calendar.{leap, month_length, years_before, months_before, day_number, is_date, next_date, sunday_from, march_sunday, november_sunday};
ghost use Rattle.calendar.specs.Years.{Known};

// A date, which need not be there.
#[derive(Clone, Copy, Debug, PartialEq, Eq)]
pub struct Date {
    pub year: u16,
    pub month: u8,
    pub day: u8,
}

// A day, counted from 1970-01-01. It is a type of its own, so that days are never mixed with keys, which count seconds.
#[derive(Clone, Copy, Debug, PartialEq, Eq, PartialOrd, Ord)]
pub struct DayNumber(pub u32);

// The year whose first day is day 0.
const FIRST_YEAR: u16 = 1970;

// The months that the code names. A year ends with December.
const FEBRUARY: u8 = 2;

const MARCH: u8 = 3;

const NOVEMBER: u8 = 11;

const DECEMBER: u8 = 12;

// The lengths of the months 1 to 12; February's in a year that is no leap year.
const LENGTHS: [u8; 13] = [0, 31, 28, 31, 30, 31, 30, 31, 31, 30, 31, 30, 31];

// How many days a week has.
const WEEK: u32 = 7;

#[tactic(auto, unfolding(crate::specs::Calendar::leap))]
fn is_leap(year: u16) -> bool
    ensures { result ≡ leap year }
{
    year % 4 == 0 && (year % 100 != 0 || year % 400 == 0)
}

#[tactic(auto, using(crate::proofs::Lengths::leap_february, crate::proofs::Lengths::other_february))]
fn february(year: u16) -> u8
    ensures { result ≡ month_length year 2 }
{
    if is_leap(year) { 29 } else { 28 }
}

// The length of a month, 0 for a month that is not there.
fn month_length(year: u16, month: u8) -> u8
    ensures { (result ≡ month_length year month) × (result ≤ 31) }
{
    match month {
        FEBRUARY => february(year),
        0..=DECEMBER => LENGTHS[month as usize],
        _ => 0,
    }
}

// The days of the months before a month: those before the last of them, and the last. The month falls with each call: recursion, which the scope
// wants where it fits first.
fn months_before(year: u16, month: u8) -> u32
    ensures { (result ≡ months_before year month) × (result ≤ 31 * month) }
{
    if month == 0 {
        return 0;
    }
    months_before(year, month - 1) + u32::from(month_length(year, month - 1))
}

// The days of the years before a year: one more for every fourth. Of the hundreds only 2000 comes before one of these years, and it is a leap year.
fn years_before(year: u16) -> u32
    requires { Known year }
    ensures { (result ≡ years_before year) × (result < 50000) }
{
    let n = u32::from(year - FIRST_YEAR);
    365 * n + (n + 1) / 4
}

// A date's day number.
pub fn day_number(date: Date) -> DayNumber
    requires { Known date.year × (1 ≤ date.day) }
    ensures { (result.0 ≡ day_number date) × (result.0 < 65536) }
{
    DayNumber(
        years_before(date.year) + months_before(date.year, date.month) + u32::from(date.day - 1),
    )
}

// Whether a date is there.
#[tactic(auto, unfolding(crate::specs::Calendar::is_date))]
pub fn is_date(date: Date) -> bool
    ensures { result ≡ is_date date }
{
    1 <= date.day && date.day <= month_length(date.year, date.month)
}

// The date after a date.
#[tactic(auto, unfolding(crate::specs::Calendar::next_date))]
pub fn next(date: Date) -> Date
    requires { (is_date date ≡ true) × (date.year < 65535) }
    ensures { result ≡ next_date date }
{
    if date.day < month_length(date.year, date.month) {
        Date {
            day: date.day + 1,
            ..date
        }
    } else if date.month < DECEMBER {
        Date {
            month: date.month + 1,
            day: 1,
            ..date
        }
    } else {
        Date {
            year: date.year + 1,
            month: 1,
            day: 1,
        }
    }
}

// The first Sunday on or after a day.
fn sunday_from(n: DayNumber) -> DayNumber
    requires { n.0 < 65536 }
    ensures { (result.0 ≡ sunday_from n.0) × (result.0 < 65544) }
{
    DayNumber(n.0 + (6 - (n.0 + 3) % WEEK))
}

// The second Sunday of March.
pub fn march_sunday(year: u16) -> DayNumber
    requires { Known year }
    ensures { result.0 ≡ march_sunday year }
{
    let first = sunday_from(day_number(Date {
        year,
        month: MARCH,
        day: 1,
    }));
    DayNumber(first.0 + WEEK)
}

// The first Sunday of November.
pub fn november_sunday(year: u16) -> DayNumber
    requires { Known year }
    ensures { result.0 ≡ november_sunday year }
{
    sunday_from(day_number(Date {
        year,
        month: NOVEMBER,
        day: 1,
    }))
}
