// Document 01's layout, the record `rm01` of the specs: 52 4D 30 31, count as u32, then per range start i64, end i64, value u8.
// Where each stands is known here alone.
ghost use Rattle.std.specs.Prelude.{◌≡◌, ◌+◌, ◌≤◌, ◌<◌, length, take, drop};
ghost use Rattle.std.proofs.lemmas.List.Edits.{sets};
ghost use Rattle.key.specs.InnerDecides.{Decides};
ghost use Rattle.outcomes.specs.Stored.{places};
ghost use Rattle.byte_form.specs.Layout.{rm01, head_of, head_size, form_size};
ghost use Rattle.byte_form.specs.Form.{count_in};

use crate::number::{I64_SIZE, U32_SIZE, key_at, put_key, put_u32, u32_at};
use key::Value;
use outcomes::PLACES;

// 52 4D 30 31.
const MARK: [u8; U32_SIZE] = *b"RM01";

// The mark, and the count after it.
pub const HEAD_SIZE: usize = 2 * U32_SIZE;

// In a range the end stands after the start, and the value after the end.
const END_AT: usize = I64_SIZE;

const VALUE_AT: usize = 2 * I64_SIZE;

pub const RANGE_SIZE: usize = VALUE_AT + 1;

// The longest form: that of a full map.
pub const LONGEST: usize = HEAD_SIZE + RANGE_SIZE * PLACES;

// Ties it to the length that the definitions give.
pub fn longest() -> usize
    ensures { result ≡ form_size rm01 places }
{
    LONGEST
}

// How long the form of so many ranges is. A range that follows them begins there.
pub fn form_size(count: usize) -> usize
    requires { count ≤ places }
    ensures { result ≡ form_size rm01 count }
{
    HEAD_SIZE + RANGE_SIZE * count
}

// Writes the mark and the count into the first bytes.
pub fn put_head(out: &mut [u8], count: usize)
    requires { head_size rm01 ≤ length out.old }
    ensures { out.new ≡ sets out.old 0 (head_of rm01 count) }
{
    out[..U32_SIZE].copy_from_slice(&MARK);
    put_u32(&mut out[U32_SIZE..], count as u64);
}

// Writes one range into its bytes.
pub fn put_range(out: &mut [u8], start: i64, end: i64, value: Value)
    requires { rm01.size ≤ length out.old }
    ensures { out.new ≡ sets out.old 0 (rm01.written (record { start = start; end = end; value = value })) }
{
    put_key(out, start);
    put_key(&mut out[END_AT..], end);
    out[VALUE_AT] = value;
}

// Whether the mark stands first.
pub fn has_mark(bytes: &[u8]) -> bool
    requires { head_size rm01 ≤ length bytes.now }
    ensures { Decides result (take (length rm01.mark) bytes.now ≡ rm01.mark) }
{
    bytes.starts_with(&MARK)
}

// The count, which stands after the mark.
#[tactic(auto, unfolding(crate::specs::Form::count_in))]
pub fn count_in(bytes: &[u8]) -> u64
    requires { head_size rm01 ≤ length bytes.now }
    ensures { (result ≡ count_in rm01 bytes.now) × (result < 4294967296) }
{
    u32_at(bytes, U32_SIZE)
}

// The start of the range whose bytes begin at `at`.
#[tactic(auto, unfolding(crate::specs::Bytes::range_in))]
pub fn start_at(bytes: &[u8], at: usize) -> i64
    requires { at + rm01.size ≤ length bytes.now }
    ensures { result ≡ (rm01.read (drop at bytes.now)).start }
{
    key_at(bytes, at)
}

// Its end.
pub fn end_at(bytes: &[u8], at: usize) -> i64
    requires { at + rm01.size ≤ length bytes.now }
    ensures { result ≡ (rm01.read (drop at bytes.now)).end }
{
    key_at(bytes, at + END_AT)
}

// Its value.
#[tactic(auto, unfolding(crate::specs::Bytes::range_in))]
pub fn value_at(bytes: &[u8], at: usize) -> u8
    requires { at + rm01.size ≤ length bytes.now }
    ensures { result ≡ (rm01.read (drop at bytes.now)).value }
{
    bytes[at + VALUE_AT]
}
