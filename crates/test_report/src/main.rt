// Prints day reports: document 01's November report, of the map that its two inserts leave, the days around it, and each refusal.
// An hour is printed where it is one of those that document 01 says, or of a whole day.
#![tactic(auto)]

use key::RangeKind;
use outcomes::Stored;
use report::DayReport;
use test_print::{print, print_found, print_number};

// The hours that are expected: none, those of document 01, and whole days.
const EXPECTED: [u32; 5] = [0, 7, 18, 23, 24];

// What the hours are, if it is one of these numbers, and else 99, which no day has.
fn known(hours: f64) -> u64 {
    for whole in EXPECTED {
        if hours == f64::from(whole) {
            return u64::from(whole);
        }
    }
    99
}

// The seconds of a duty behind its name, and the hours in parentheses.
fn print_duty(name: &[u8], seconds: u32, hours: f64) {
    io::write_all(1, name);
    print_number(u64::from(seconds));
    io::write_all(1, b" (");
    print_number(known(hours));
    io::write_all(1, b".0)");
}

fn print_report(r: DayReport) {
    print_found(r.answer, RangeKind::HalfOpen, r.start, r.end);
    print_duty(b": off duty ", r.off_duty, r.off_duty_hours);
    print_duty(b", sleeper berth ", r.sleeper_berth, r.sleeper_berth_hours);
    print_duty(b", driving ", r.driving, r.driving_hours);
    print_duty(b", on duty ", r.on_duty, r.on_duty_hours);
    print_duty(b", unrecorded ", r.unrecorded, r.unrecorded_hours);
    print(b'\n');
}

// Status 1 over 2024-11-03, Eastern, then `status` on 1730628000..1730653200: three places. With a count of 2 it is not well formed.
fn november(count: usize, status: u8) -> Stored {
    let mut m = Stored::new();
    m.count = count;
    m.starts[..3].copy_from_slice(&[1730606400, 1730628000, 1730653200]);
    m.ends[..3].copy_from_slice(&[1730628000, 1730653200, 1730696400]);
    m.values[..3].copy_from_slice(&[1, status, 1]);
    m
}

// The report of a day, behind its name, by the count and the status of the map, the zone and the date.
fn ask(name: &[u8], count: usize, status: u8, zone: u8, year: u16, month: u8, day: u8) {
    io::write_all(1, name);
    let m = november(count, status);
    print_report(report::day_report(&m, zone, year, month, day));
}

fn main() {
    ask(b"November ", 3, 3, 0, 2024, 11, 3);
    ask(b"the day before ", 3, 3, 0, 2024, 11, 2);
    ask(b"the day after ", 3, 3, 0, 2024, 11, 4);
    ask(b"a short day ", 3, 3, 0, 2024, 3, 10);
    ask(b"no such date ", 3, 3, 0, 2023, 2, 29);
    ask(b"no such zone ", 3, 3, 7, 2024, 11, 3);
    ask(b"status 0 ", 3, 0, 0, 2024, 11, 3);
    ask(b"status 0 on another day ", 3, 0, 0, 2024, 11, 4);
    ask(b"not well formed, and no such date ", 2, 3, 0, 2023, 2, 29);
}
