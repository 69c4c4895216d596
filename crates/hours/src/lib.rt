// Seconds as hours.
#![tactic(auto)]

ghost use Rattle.std.specs.Prelude.{◌≡◌};
ghost use Rattle.hours.specs.Hours.{hours_of};

// How many seconds an hour has.
const HOUR: f64 = 3600.0;

// The hours of some seconds: the double nearest seconds / 3600. Both numbers are doubles exactly, so only the quotient rounds.
pub fn hours(seconds: u32) -> f64
    ensures { result ≡ hours_of seconds }
{
    f64::from(seconds) / HOUR
}
