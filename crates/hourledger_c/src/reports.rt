// The report of a day.
ghost use Rattle.map_report.specs.Promises.{RangeMapDayReport, RangeMapDayReportUnchecked};
ghost use Rattle.outcomes.specs.Stored.{Sound};
ghost use Rattle.key.specs.Range.{half_open};
ghost use Rattle.map.specs.Map.{held};

use map::RangeMap;
use report::DayReport;

// The report of a date's day in a zone: 4, 8 or 10, or all that document 01 says.
#[unsafe(no_mangle)]
pub extern "C" fn range_map_day_report(
    m: &RangeMap,
    zone: u8,
    year: u16,
    month: u8,
    day: u8,
) -> DayReport
    ensures { RangeMapDayReport m.now zone year month day result }
{
    map_report::range_map_day_report(m, zone, year, month, day)
}

// The report of a date's day in a zone, of a map that must be well formed.
#[unsafe(no_mangle)]
pub extern "C" fn range_map_day_report_unchecked(
    m: &RangeMap,
    zone: u8,
    year: u16,
    month: u8,
    day: u8,
) -> DayReport
    requires { Sound half_open (held m.now) }
    ensures { RangeMapDayReportUnchecked m.now zone year month day result }
{
    map_report::inner::range_map_day_report_unchecked(m, zone, year, month, day)
}
