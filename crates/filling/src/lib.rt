// Text with numbers filled in, put into lent bytes.
#![tactic(auto)]

ghost use Rattle.std.specs.Prelude.{◌≡◌, ◌+◌, ◌*◌, ◌≤◌, length};
ghost use Rattle.filling.specs.Filling.{left_by, filled_in, filled_room, AddsWithin};
ghost use Rattle.filling.specs.InnerFill.{Piece};
ghost use Rattle.decimal.specs.Decimal.{longest_number};

use decimal::put_u64;
use text::put_byte;

// What one byte of a text becomes before these numbers. Answered are the place behind it, and the numbers that are left.
fn put_piece<'a>(out: &mut [u8], at: usize, byte: u8, numbers: &'a [u64]) -> (usize, &'a [u64])
    requires { at + 1 + longest_number * length numbers.now ≤ length out.old }
    ensures piece { Piece byte numbers.now out.old at out.new result.0 }
    ensures left { result.1.now ≡ left_by byte numbers.now }
{
    if byte != b'{' {
        return (put_byte(out, at, byte), numbers);
    }
    match numbers.split_first() {
        Some((number, rest)) => (put_u64(out, at, *number), rest),
        None => (put_byte(out, at, byte), numbers),
    }
}

// A text with numbers filled in at its holes, `{`.
pub fn fill(out: &mut [u8], at: usize, text: &[u8], numbers: &[u64]) -> usize
    requires { at + filled_room text.now numbers.now ≤ length out.old }
    ensures { AddsWithin (filled_room text.now numbers.now) (filled_in text.now numbers.now) out.old at out.new result }
{
    let mut to = at;
    let mut left = numbers;
    for byte in text {
        (to, left) = put_piece(out, to, *byte, left);
    }
    to
}
