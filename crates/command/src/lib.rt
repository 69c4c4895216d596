// The words of the command line: which command they are.
#![tactic(auto)]

mod number;
pub mod said;

ghost use Rattle.std.specs.Prelude.{◌≡◌, [], ◌∷◌};
ghost use Rattle.decimal.specs.Reading.{read_signed};
ghost use Rattle.command.specs.Words.{dated_by, query_in, command_of};

use number::number_of;

// What is shown of a day.
#[derive(Clone, Copy)]
pub enum View {
    Report,
    Graph,
    Picture,
}

// What the program is asked for: of a day its zone, year, month and day, and of a query its window.
#[derive(Clone, Copy)]
pub enum Command {
    Ranges,
    Dated(View, u8, u16, u8, u8),
    Query(i64, i64),
    Make,
    Help,
    Other,
}

// No zone, month or day is as great, and no year: what judges a date refuses them.
const SMALL: u64 = u8::MAX as u64;

const YEAR: u64 = u16::MAX as u64;

#[tactic(auto, unfolding(crate::specs::Words::dated_by))]
fn dated_by(view: View, zone: &[u8], year: &[u8], month: &[u8], day: &[u8]) -> Command
    ensures { result ≡ dated_by view zone.now year.now month.now day.now }
{
    let Some(z) = number_of(SMALL, zone) else {
        return Command::Other;
    };
    let Some(y) = number_of(YEAR, year) else {
        return Command::Other;
    };
    let Some(m) = number_of(SMALL, month) else {
        return Command::Other;
    };
    let Some(d) = number_of(SMALL, day) else {
        return Command::Other;
    };
    Command::Dated(view, z as u8, y as u16, m as u8, d as u8)
}

fn query_in(start: &[u8], end: &[u8]) -> Command
    ensures { result ≡ query_in (read_signed start.now) (read_signed end.now) }
{
    let Some(s) = decimal::read_i64(start) else {
        return Command::Other;
    };
    let Some(e) = decimal::read_i64(end) else {
        return Command::Other;
    };
    Command::Query(s, e)
}

// The command of one word. A match on the words themselves was tried: it leaves a goal to prove for each byte at which one may differ.
pub fn one(word: &[u8]) -> Command
    ensures { result ≡ command_of (word.now ∷ []) }
{
    if word == b"ranges".as_slice() {
        Command::Ranges
    } else if word == b"make".as_slice() {
        Command::Make
    } else if word == b"--help".as_slice() {
        Command::Help
    } else {
        Command::Other
    }
}

// That of five.
pub fn five(word: &[u8], a: &[u8], b: &[u8], c: &[u8], d: &[u8]) -> Command
    ensures { result ≡ command_of (word.now ∷ a.now ∷ b.now ∷ c.now ∷ d.now ∷ []) }
{
    if word == b"day".as_slice() {
        dated_by(View::Report, a, b, c, d)
    } else if word == b"graph".as_slice() {
        dated_by(View::Graph, a, b, c, d)
    } else {
        Command::Other
    }
}

// That of six.
pub fn six(word: &[u8], a: &[u8], b: &[u8], c: &[u8], d: &[u8], e: &[u8]) -> Command
    ensures { result ≡ command_of (word.now ∷ a.now ∷ b.now ∷ c.now ∷ d.now ∷ e.now ∷ []) }
{
    if word == b"query".as_slice() {
        query_in(a, b)
    } else if word == b"graph".as_slice() && e == b"--svg".as_slice() {
        dated_by(View::Picture, a, b, c, d)
    } else {
        Command::Other
    }
}
