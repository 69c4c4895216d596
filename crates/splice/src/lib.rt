// Columns of a map: what clears places, and what replaces them. Each column has loops of its own, so that they vectorise.
#![tactic(auto)]

ghost use Rattle.std.specs.Prelude.{◌≡◌, ◌+◌, ◌≤◌, length, take, pos};
ghost use Rattle.std.proofs.Math.Seq.{paste};
ghost use Rattle.splice.specs.InnerSplice.{filled_with, Filler, spliced};
ghost use Rattle.splice.specs.InnerReplace.{Columns, Apt, Room, new_starts, new_ends, new_values};

use key::{Entry, Value};

// The places from `from` up to `to` go; the first `n` of x, y and z come in their stead.
// Three fields and no array: to a contract an array is a list of some length, so two plans with the same three entries could differ.
#[derive(Clone, Copy)]
pub struct Replacement {
    pub from: usize,
    pub to: usize,
    pub n: usize,
    pub x: Entry,
    pub y: Entry,
    pub z: Entry,
}

// Writes `with` into the places from `from` up to `to`: into none if `to` comes first.
// A loop, since `fill` wants a clone that cannot fail and is the same value, and `Copy` does not say so.
pub fn clear<T: Copy>(a: &mut [T], from: usize, to: usize, with: T)
    requires { to ≤ length a.old }
    ensures { a.new ≡ filled_with a.old from to with }
{
    for p in from..to {
        a[p] = with;
    }
}

// Writes the first n of three from the place `at` on.
// A test for each, since `copy_from_slice` calls the C library for so few: some 60 instructions more a splice.
fn put<T: Copy>(a: &mut [T], at: usize, new: &[T; 3], n: usize)
    requires { (n ≤ 3) × (at + n ≤ length a.old) }
    ensures { a.new ≡ paste a.old at new.now n }
{
    for k in 0..3 {
        if k < n {
            a[at + k] = new[k];
        }
    }
}

// Carries a replacement out in one column, in which the first of `new` come; the places after those that go move up or down.
// Where as many come as go none moves, and none is copied: what is replaced in place takes the same time in a map of any size.
fn splice_column<T: Copy>(a: &mut [T], count: usize, p: Replacement, new: &[T; 3], spare: T)
    requires { Apt count p × Room count p (length a.old) × Filler a.old count spare }
    ensures { a.new ≡ spliced a.old p.from p.to count (take p.n new.now) spare }
{
    let next = p.from + p.n;
    if next != p.to {
        a.copy_within(p.to..count, next);
    }
    put(a, p.from, new, p.n);
    clear(a, next + (count - p.to), count, spare);
}

// Replaces places in all three columns.
pub fn splice(
    count: usize,
    starts: &mut [i64],
    ends: &mut [i64],
    values: &mut [Value],
    p: Replacement,
)
    requires { Columns count starts.old ends.old values.old × Apt count p × Room count p (length starts.old) }
    ensures starts_value { starts.new ≡ spliced starts.old p.from p.to count (new_starts p) (pos 0) }
    ensures ends_value { ends.new ≡ spliced ends.old p.from p.to count (new_ends p) (pos 0) }
    ensures values_value { values.new ≡ spliced values.old p.from p.to count (new_values p) 0 }
{
    let (x, y, z) = (p.x, p.y, p.z);
    splice_column(starts, count, p, &[x.start, y.start, z.start], 0);
    splice_column(ends, count, p, &[x.end, y.end, z.end], 0);
    splice_column(values, count, p, &[x.value, y.value, z.value], 0);
}
