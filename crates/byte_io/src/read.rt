// The reader of document 01's byte form. The bytes are checked first, where they stand; nothing is written before the answer is known.
ghost use Rattle.std.specs.Prelude.{◌≡◌, ◌≤◌, ◌<◌, false, drop, MatchOption};
ghost use Rattle.key.specs.InnerDecides.{Decides};
ghost use Rattle.key.specs.Range.{half_open};
ghost use Rattle.outcomes.specs.Stored.{places};
ghost use Rattle.outcomes.specs.InnerOutcome.{Leaves};
ghost use Rattle.store.specs.InnerCheck.{Step, Steps};
ghost use Rattle.byte_form.specs.Layout.{rm01, form_size};
ghost use Rattle.byte_form.specs.Form.{is_form, read};
ghost use Rattle.byte_io.specs.InnerRead.{MayFollow, ReadsForm, Sized, Filled, Cleared, told};

use answers::Refusal;
use byte_form::rm01::{HEAD_SIZE, count_in, end_at, form_size, has_mark, start_at, value_at};
use key::Entry;
use outcomes::{PLACES, Stored};

// The range at place `k`.
fn range_at(bytes: &[u8], count: usize, k: usize) -> Entry
    requires { (k < count) × Sized rm01 count bytes.now }
    ensures { result ≡ rm01.read (drop (form_size rm01 k) bytes.now) }
{
    let at = form_size(k);
    Entry {
        start: start_at(bytes, at),
        end: end_at(bytes, at),
        value: value_at(bytes, at),
    }
}

// Whether a range begins past another, or where that one ends with another value.
fn may_follow(x: Entry, next: Entry) -> bool
    ensures { Decides result (MayFollow x next) }
{
    x.end <= next.start && (x.end < next.start || x.value != next.value)
}

// Whether the range at `k` is not empty, and the next one may follow it.
fn step(bytes: &[u8], count: usize, k: usize) -> bool
    requires { (k < count) × Sized rm01 count bytes.now }
    ensures { Decides result (Step half_open (told rm01 count bytes.now) k) }
{
    let x = range_at(bytes, count, k);
    x.start < x.end && (k + 1 == count || may_follow(x, range_at(bytes, count, k + 1)))
}

// Whether all ranges are so.
fn tidy(bytes: &[u8], count: usize) -> bool
    requires { Sized rm01 count bytes.now }
    ensures { Decides result (Steps half_open (told rm01 count bytes.now)) }
{
    (0..count).all(|k| step(bytes, count, k))
}

// How many ranges the map has whose form the bytes are: none if they are the form of no well-formed map.
fn form_count(bytes: &[u8]) -> Option<usize>
    ensures { MatchOption result (is_form rm01 bytes.now ≡ false) (λ n. ReadsForm rm01 n bytes.now) }
{
    if bytes.len() < HEAD_SIZE || !has_mark(bytes) {
        return None;
    }
    let n = count_in(bytes);
    if n > PLACES as u64 {
        return None;
    }
    let count = n as usize;
    if bytes.len() != form_size(count) || !tidy(bytes, count) {
        return None;
    }
    Some(count)
}

// The ranges into the first places.
fn fill(m: &mut Stored, bytes: &[u8], count: usize)
    requires { Sized rm01 count bytes.now }
    ensures { Filled rm01 count bytes.now m.old m.new }
{
    for k in 0..count {
        let x = range_at(bytes, count, k);
        m.starts[k] = x.start;
        m.ends[k] = x.end;
        m.values[k] = x.value;
    }
}

// 0 into the others.
fn clear_rest(m: &mut Stored, count: usize)
    requires { count ≤ places }
    ensures { Cleared count m.old m.new }
{
    m.starts[count..].fill(0);
    m.ends[count..].fill(0);
    m.values[count..].fill(0);
}

// The map whose form the bytes are.
pub fn read(m: &mut Stored, bytes: &[u8]) -> Result<(), Refusal>
    ensures { Leaves result m.new (read rm01 m.old bytes.now) }
{
    let Some(n) = form_count(bytes) else {
        return Err(Refusal::NoMap);
    };
    fill(m, bytes, n);
    clear_rest(m, n);
    m.count = n;
    Ok(())
}
