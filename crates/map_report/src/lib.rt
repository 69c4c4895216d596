// A day's report of a map: the functions that `hourledger_c` exports. Each has a file of its own, so that each line of code stands once in its file
// and a wrong one can be tried.
#![tactic(auto)]

ghost use Rattle.map_report.specs.Promises.{RangeMapDayReport};

use map::RangeMap;
use report::DayReport;

pub mod inner;

// The report of a date's day in a zone: 4, 8 or 10, or all that document 01 says.
pub fn range_map_day_report(m: &RangeMap, zone: u8, year: u16, month: u8, day: u8) -> DayReport
    ensures { RangeMapDayReport m.now zone year month day result }
{
    report::day_report(&m.stored, zone, year, month, day)
}
