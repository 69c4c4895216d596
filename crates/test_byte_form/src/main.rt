// Reads byte forms from standard input, and writes them again. Each input is a length of two bytes, the lower first, and so many bytes. For each the
// program prints the reader's answer as a digit, the form of the map that is there then, which is the empty one where the reader refused, and a line's end.
#![tactic(auto)]

use answers::Refusal;
use outcomes::{Stored, number_of};
use test_print::{print, print_number};

// Enough for the form of a full map. A longer input is not looked at.
const ROOM: usize = 9000;

fn print_written(out: &[u8], wrote: Result<usize, Refusal>) {
    match wrote {
        Ok(n) => {
            if n <= out.len() {
                io::write_all(1, &out[..n]);
            }
        }
        Err(why) => print_number(why.number() as u64),
    }
    print(b'\n');
}

fn read_and_write(bytes: &[u8]) {
    let mut m = Stored::new();
    let read = byte_io::read::read(&mut m, bytes);
    print_number(number_of(read) as u64);
    let mut out = [0u8; ROOM];
    let wrote = byte_io::write::write(&m, &mut out);
    print_written(&out, wrote);
}

fn take_into(bytes: &mut [u8]) {
    let got = io::read_full(0, bytes);
    if got == bytes.len() {
        read_and_write(bytes);
    }
}

// An input of so many bytes.
fn take(n: usize) {
    let mut bytes = [0u8; ROOM];
    if n <= ROOM {
        take_into(&mut bytes[..n]);
    }
}

fn main() {
    for _ in 0..100 {
        let mut length = [0u8; 2];
        if io::read_full(0, &mut length) != 2 {
            return;
        }
        take(usize::from(u16::from_le_bytes(length)));
    }
}
