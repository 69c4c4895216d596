// Numbers as decimal text: put into lent bytes, where each function answers the place behind its text, and read.
#![tactic(auto)]

ghost use Rattle.std.specs.Prelude.{◌+◌, ◌<◌, ◌≤◌, max, ◌≡◌, length, Some};
ghost use Rattle.text.specs.Text.{Adds, right_of};
ghost use Rattle.decimal.specs.Decimal.{longest_number, digit, digits_text, decimal_text, signed_text};
ghost use Rattle.decimal.specs.Reading.{no_leading_zero, next_of, read_number, as_negative, read_signed};

use text::{put_byte, put_right};

// No text of a number of 64 bits is longer, its sign counted.
pub const LONGEST: usize = 20;

// ---- writing

// The byte of a digit.
fn digit_byte(d: u64) -> u8
    requires { d < 10 }
    ensures { result ≡ digit d }
{
    b'0' + d as u8
}

// The last k digits of a number, with zeros before it where it has fewer. The last digit is put first.
pub fn put_digits(out: &mut [u8], at: usize, k: usize, n: u64) -> usize
    requires { at + k ≤ length out.old }
    ensures { Adds (digits_text k n) out.old at out.new result }
{
    let mut rest = n;
    for i in (0..k).rev() {
        out[at + i] = digit_byte(rest % 10);
        rest /= 10;
    }
    at + k
}

// How many digits a number has. The library has no logarithm to the base 10.
fn places(n: u64) -> usize
    ensures { result ≡ length (decimal_text n) }
{
    let mut k = 1;
    let mut rest = n;
    while 10 <= rest {
        rest /= 10;
        k += 1;
    }
    k
}

// A number, where there is room for it.
fn put_number(out: &mut [u8], at: usize, n: u64) -> usize
    requires { at + length (decimal_text n) ≤ length out.old }
    ensures { Adds (decimal_text n) out.old at out.new result }
{
    put_digits(out, at, places(n), n)
}

// A number.
pub fn put_u64(out: &mut [u8], at: usize, n: u64) -> usize
    requires { at + longest_number ≤ length out.old }
    ensures { Adds (decimal_text n) out.old at out.new result }
{
    put_number(out, at, n)
}

// A number with a sign.
pub fn put_i64(out: &mut [u8], at: usize, n: i64) -> usize
    requires { at + longest_number ≤ length out.old }
    ensures { Adds (signed_text n) out.old at out.new result }
{
    if n < 0 {
        let to = put_byte(out, at, b'-');
        return put_number(out, to, n.unsigned_abs());
    }
    put_number(out, at, n.unsigned_abs())
}

// A number at the right of its columns. One that is wider than they are stands whole.
pub fn put_u64_right(out: &mut [u8], at: usize, width: usize, n: u64) -> usize
    requires { at + max width longest_number ≤ length out.old }
    ensures { Adds (right_of width (decimal_text n)) out.old at out.new result }
{
    let mut digits = [0u8; LONGEST];
    let k = put_u64(&mut digits, 0, n);
    put_right(out, at, width, &digits[..k])
}

// The same with a sign.
pub fn put_i64_right(out: &mut [u8], at: usize, width: usize, n: i64) -> usize
    requires { at + max width longest_number ≤ length out.old }
    ensures { Adds (right_of width (signed_text n)) out.old at out.new result }
{
    let mut text = [0u8; LONGEST];
    let k = put_i64(&mut text, 0, n);
    put_right(out, at, width, &text[..k])
}

// ---- reading

// Whether a text is not empty, and no zero stands before other bytes.
pub fn is_plain(text: &[u8]) -> bool
    ensures { result ≡ no_leading_zero text.now }
{
    match text {
        [] => false,
        [_] => true,
        [first, ..] => *first != b'0',
    }
}

// A number with one byte more behind it.
fn next(n: u64, byte: u8) -> Option<u64>
    ensures { result ≡ next_of (Some n) byte }
{
    match byte {
        b'0'..=b'9' => n.checked_mul(10)?.checked_add(u64::from(byte - b'0')),
        _ => None,
    }
}

// The number below 2 ^ 64 that a text says.
pub fn read_u64(text: &[u8]) -> Option<u64>
    ensures { result ≡ read_number text.now }
{
    if !is_plain(text) {
        return None;
    }
    let mut n: u64 = 0;
    for byte in text {
        n = next(n, *byte)?;
    }
    Some(n)
}

// A number behind a minus, as an i64. There is no -0.
fn negative(n: u64) -> Option<i64>
    ensures { result ≡ as_negative (Some n) }
{
    if n == 0 {
        return None;
    }
    0i64.checked_sub_unsigned(n)
}

// The i64 that a text says.
pub fn read_i64(text: &[u8]) -> Option<i64>
    ensures { result ≡ read_signed text.now }
{
    match text.strip_prefix(b"-") {
        Some(digits) => negative(read_u64(digits)?),
        None => i64::try_from(read_u64(text)?).ok(),
    }
}
