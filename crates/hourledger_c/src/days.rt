// Log days.
ghost use Rattle.log_day.specs.Promises.{LogDayPromise};

use log_day::LogDay;

// THE DAY of a date in a zone: its start and its end, or 8.
#[unsafe(no_mangle)]
pub extern "C" fn log_day(zone: u8, year: u16, month: u8, day: u8) -> LogDay
    ensures { LogDayPromise zone year month day result }
{
    log_day::log_day(zone, year, month, day)
}
