// The unchecked door of a day's report.
ghost use Rattle.map.specs.Map.{held};
ghost use Rattle.key.specs.Range.{half_open};
ghost use Rattle.outcomes.specs.Stored.{Sound};
ghost use Rattle.map_report.specs.Promises.{RangeMapDayReportUnchecked};

use map::RangeMap;
use report::DayReport;

// The report of a date's day in a zone, of a map that must be well formed.
pub fn range_map_day_report_unchecked(
    m: &RangeMap,
    zone: u8,
    year: u16,
    month: u8,
    day: u8,
) -> DayReport
    requires { Sound half_open (held m.now) }
    ensures { RangeMapDayReportUnchecked m.now zone year month day result }
{
    report::day_report_unchecked(&m.stored, zone, year, month, day)
}
