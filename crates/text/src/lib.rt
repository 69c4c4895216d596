// Text into lent bytes, from a place on. Each function answers the place behind its text, where the next one goes on.
#![tactic(auto)]

ghost use Rattle.std.specs.Prelude.{[], ◌∷◌, ◌+◌, ◌-◌, ◌<◌, ◌≤◌, max, ◌≡◌, length, replicate};
ghost use Rattle.text.specs.Text.{space, Adds, right_of, left_of};

// A text as it is.
pub fn put(out: &mut [u8], at: usize, text: &[u8]) -> usize
    requires { at + length text.now ≤ length out.old }
    ensures { Adds text.now out.old at out.new result }
{
    let to = at + text.len();
    out[at..to].copy_from_slice(text);
    to
}

// A text of one byte.
pub fn put_byte(out: &mut [u8], at: usize, byte: u8) -> usize
    requires { at < length out.old }
    ensures { Adds (byte ∷ []) out.old at out.new result }
{
    out[at] = byte;
    at + 1
}

// n spaces.
pub fn put_spaces(out: &mut [u8], at: usize, n: usize) -> usize
    requires { at + n ≤ length out.old }
    ensures { Adds (replicate n space) out.old at out.new result }
{
    let to = at + n;
    out[at..to].fill(b' ');
    to
}

// A text at the right of its columns. One that is wider than they are stands whole.
pub fn put_right(out: &mut [u8], at: usize, width: usize, text: &[u8]) -> usize
    requires { at + max width (length text.now) ≤ length out.old }
    ensures { Adds (right_of width text.now) out.old at out.new result }
{
    let n = width.saturating_sub(text.len());
    let to = put_spaces(out, at, n);
    put(out, to, text)
}

// A text at the left of its columns. One that is wider than they are stands whole.
pub fn put_left(out: &mut [u8], at: usize, width: usize, text: &[u8]) -> usize
    requires { at + max width (length text.now) ≤ length out.old }
    ensures { Adds (left_of width text.now) out.old at out.new result }
{
    let n = width.saturating_sub(text.len());
    let to = put(out, at, text);
    put_spaces(out, to, n)
}
