// `query`: the ranges of a query of two files. The window is judged first, and the first file before the second.
ghost use Rattle.std.specs.Prelude.{◌≤◌};
ghost use Rattle.range_text.specs.RangeText.{results};

use crate::form::{ROOM, load, read_form};
use crate::output::{fail, print, refuse};
use crate::words::Argument;
use answers::Refusal;
use outcomes::Stored;
use range_text::{RESULTS, RESULTS_ROOM, result_text};
use std::fs::File;
use std::io;

// Why there is no map: the file could not be opened, or what it holds is no form.
#[derive(Drop)]
enum NoMap {
    NotOpened(io::Error),
    Refused(Refusal),
}

impl From<io::Error> for NoMap {
    fn from(error: io::Error) -> NoMap {
        NoMap::NotOpened(error)
    }
}

impl From<Refusal> for NoMap {
    fn from(why: Refusal) -> NoMap {
        NoMap::Refused(why)
    }
}

// Opens a file. The system takes any bytes as a name, and the library only what is UTF-8.
fn open(rt: &HostRuntime, path: &[u8]) -> io::Result<File> {
    match std::str::from_utf8(path) {
        Ok(name) => File::open(rt, name),
        Err(_) => Err(io::Error::from(io::ErrorKind::InvalidInput)),
    }
}

// Loads the form of a file.
fn take(rt: &HostRuntime, path: &[u8], m: &mut Stored) -> Result<(), NoMap> {
    let mut file = open(rt, path)?;
    let mut bytes = [0u8; ROOM];
    let n = read_form(&mut file, &mut bytes);
    load(&bytes[..n], m)?;
    Ok(())
}

// Loads the form of the file that a word names, and says whether there is a map. Why there is none is said.
fn is_taken(rt: &HostRuntime, place: usize, m: &mut Stored) -> bool {
    let path = Argument::read(rt, place);
    match take(rt, path.text(), m) {
        Ok(()) => true,
        Err(NoMap::Refused(why)) => {
            refuse(rt, why);
            false
        }
        Err(NoMap::NotOpened(error)) => {
            fail(rt, path.text(), &error);
            false
        }
    }
}

fn show(rt: &HostRuntime, n: usize, starts: &[i64; RESULTS], ends: &[i64; RESULTS])
    requires { n ≤ results }
{
    let mut out = [0u8; RESULTS_ROOM];
    let k = result_text(n, starts, ends, &mut out);
    print(rt, &out, k);
}

fn of_query(rt: &HostRuntime, a: &Stored, b: &Stored, start: i64, end: i64, query: &[u8]) {
    let mut starts = [0i64; RESULTS];
    let mut ends = [0i64; RESULTS];
    match query::ranges::query(a, b, start, end, query, &mut starts, &mut ends) {
        Ok(n) => show(rt, n, &starts, &ends),
        Err(why) => refuse(rt, why),
    }
}

pub fn run(rt: &HostRuntime, start: i64, end: i64) {
    if start >= end {
        refuse(rt, Refusal::EmptyRange);
        return;
    }
    let mut a = Stored::new();
    let mut b = Stored::new();
    if is_taken(rt, 5, &mut a) && is_taken(rt, 6, &mut b) {
        let query = Argument::read(rt, 4);
        of_query(rt, &a, &b, start, end, query.text());
    }
}
