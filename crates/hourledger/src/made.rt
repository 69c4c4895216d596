// `make`: lines of edits in, a byte form out.
ghost use Rattle.hourledger.specs.InnerInput.{Held};

use crate::input::{NoText, read_all};
use crate::output::{fail, print, print_error};
use byte_form::rm01::LONGEST;
use edit_lines::NotMade;
use edit_lines::said::{TOLD_ROOM, told_text};
use outcomes::Stored;

// The most bytes that are taken, and a byte more.
const ROOM: usize = 1048577;

fn say(rt: &HostRuntime, went: Result<(), NotMade>) {
    let mut out = [0u8; TOLD_ROOM];
    let n = told_text(went, &mut out);
    print_error(rt, &out, n);
}

fn write_form(rt: &HostRuntime, m: &Stored) {
    let mut out = [0u8; LONGEST];
    if let Ok(n) = byte_io::write::write(m, &mut out) {
        print(rt, &out, n);
    }
}

fn of_text(rt: &HostRuntime, text: &[u8]) {
    let mut m = Stored::new();
    match edit_lines::make(text, &mut m) {
        Ok(()) => write_form(rt, &m),
        went => say(rt, went),
    }
}

// Reads the lines. The array is lent as one, so that no proof writes its bytes out.
fn read_lines(rt: &HostRuntime, bytes: &mut [u8; ROOM]) -> Result<usize, NoText>
    ensures { Held result bytes.new }
{
    read_all(&mut rt.stdin(), bytes)
}

fn of_input(rt: &HostRuntime, got: Result<usize, NoText>, bytes: &[u8])
    requires { Held got bytes.now }
{
    match got {
        Ok(n) => of_text(rt, &bytes[..n]),
        Err(NoText::TooLong) => print_error(rt, b"too long\n", 9),
        Err(NoText::Failed(error)) => fail(rt, b"standard input", &error),
    }
}

// The same with the array, which is lent as a slice where nothing is known of its bytes.
fn of_array(rt: &HostRuntime, got: Result<usize, NoText>, bytes: &[u8; ROOM])
    requires { Held got bytes.now }
{
    of_input(rt, got, bytes);
}

pub fn run(rt: &HostRuntime) {
    let mut bytes = [0u8; ROOM];
    let got = read_lines(rt, &mut bytes);
    of_array(rt, got, &bytes);
}
