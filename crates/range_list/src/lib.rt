// A lent list of ranges: two slices, of starts and of ends. It is as long as the shorter of the two.
#![tactic(auto)]

ghost use Rattle.std.specs.Prelude.{◌≡◌, ◌<◌, min, length, set};

// The lesser of two lengths.
pub fn shorter(a: usize, b: usize) -> usize
    ensures { result ≡ min a b }
{
    a.min(b)
}

// Writes a range into place `n`.
pub fn put(out_starts: &mut [i64], out_ends: &mut [i64], n: usize, start: i64, end: i64)
    requires { (n < length out_starts.old) × (n < length out_ends.old) }
    ensures { (out_starts.new ≡ set out_starts.old n start) × (out_ends.new ≡ set out_ends.old n end) }
{
    out_starts[n] = start;
    out_ends[n] = end;
}
