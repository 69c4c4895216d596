// The words of the command line, read and judged. One that is missing or too long is empty, and so no word of a command.
ghost use Rattle.std.specs.Prelude.{◌≡◌, ◌≤◌, length, take};

use command::Command;
use std::env::FillError;
use std::rt::Env;

// The longest word that is taken.
pub const LONGEST: usize = 4096;

// A word, and how many bytes it has.
pub fn word(rt: &HostRuntime, i: usize, bytes: &mut [u8; LONGEST]) -> usize
    ensures { result ≤ length bytes.new }
{
    match rt.arg(i, bytes) {
        Ok(n) => n,
        Err(_) => 0,
    }
}

// How many words there are, the program's own name among them: no more than 8 are counted.
fn word_count(rt: &HostRuntime) -> usize {
    let mut bytes = [0u8; LONGEST];
    for i in 0..8usize {
        match rt.arg(i, &mut bytes) {
            Ok(_) => {}
            Err(FillError::TooLong) => {}
            Err(FillError::NotPresent) => return i,
        }
    }
    8
}

// A word in memory of its own, of which it takes the first `count` bytes.
#[derive(Drop)]
pub struct Argument {
    bytes: [u8; LONGEST],
    count: usize,
    ghost in_bytes: { count ≤ 4096 },
}

impl Argument {
    pub fn read(rt: &HostRuntime, i: usize) -> Argument {
        let mut bytes = [0u8; LONGEST];
        let count = word(rt, i, &mut bytes);
        Argument { bytes, count }
    }

    pub fn text(&self) -> &[u8]
        ensures { result.now ≡ take self.now.count self.now.bytes }
    {
        &self.bytes[..self.count]
    }
}

// The one word.
fn one(rt: &HostRuntime) -> Command {
    command::one(Argument::read(rt, 1).text())
}

// The five words.
fn five(rt: &HostRuntime) -> Command {
    let name = Argument::read(rt, 1);
    let zone = Argument::read(rt, 2);
    let year = Argument::read(rt, 3);
    let month = Argument::read(rt, 4);
    let day = Argument::read(rt, 5);
    command::five(
        name.text(),
        zone.text(),
        year.text(),
        month.text(),
        day.text(),
    )
}

// The six words.
fn six(rt: &HostRuntime) -> Command {
    let a = Argument::read(rt, 1);
    let b = Argument::read(rt, 2);
    let c = Argument::read(rt, 3);
    let d = Argument::read(rt, 4);
    let e = Argument::read(rt, 5);
    let f = Argument::read(rt, 6);
    command::six(a.text(), b.text(), c.text(), d.text(), e.text(), f.text())
}

// The command that the program was started with. Its own name is not counted.
pub fn asked(rt: &HostRuntime) -> Command {
    match word_count(rt) {
        1 => Command::Ranges,
        2 => one(rt),
        6 => five(rt),
        7 => six(rt),
        _ => Command::Other,
    }
}
