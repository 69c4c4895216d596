// What is said of a text that makes nothing.
ghost use Rattle.filling.specs.Filling.{AddsWithin};
ghost use Rattle.edit_lines.specs.Making.{made, told_text};

use crate::NotMade;
use filling::fill;

// The most bytes that it takes: two numbers of 20 bytes, and the words around them.
pub const TOLD_ROOM: usize = 50;

// It is put at the start of lent bytes, and its length is answered: 0 of a text that was done.
pub fn told_text(went: Result<(), NotMade>, out: &mut [u8; TOLD_ROOM]) -> usize
    ensures { AddsWithin 50 (told_text (made went)) out.old 0 out.new result }
{
    match went {
        Ok(()) => 0,
        Err(NotMade::Refused(n, answer)) => {
            let numbers = [n as u64, u64::from(answer)];
            fill(out, 0, b"line {: {\n", &numbers)
        }
        Err(NotMade::NotAnEdit(n)) => {
            let numbers = [n as u64];
            fill(out, 0, b"line {: not an edit\n", &numbers)
        }
    }
}
