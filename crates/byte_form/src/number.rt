// Numbers as bytes, little-endian: written into lent bytes, and read from them.
ghost use Rattle.std.specs.Prelude.{◌≡◌, ◌+◌, ◌≤◌, ◌<◌, length, take, drop};
ghost use Rattle.std.proofs.lemmas.List.Edits.{sets};
ghost use Rattle.byte_form.specs.Bytes.{u32_size, i64_size, bytes_of, number_in, key_bytes, key_of};

// How many bytes a u32 is.
pub const U32_SIZE: usize = 4;

// How many bytes an i64 is.
pub const I64_SIZE: usize = 8;

// Writes a number into the first 4 bytes.
pub fn put_u32(out: &mut [u8], n: u64)
    requires { u32_size ≤ length out.old }
    ensures { out.new ≡ sets out.old 0 (bytes_of u32_size n) }
{
    out[..U32_SIZE].copy_from_slice(&n.to_le_bytes()[..U32_SIZE]);
}

// Writes an i64 into its bytes, which come first.
pub fn put_key(out: &mut [u8], a: i64)
    requires { i64_size ≤ length out.old }
    ensures { out.new ≡ sets out.old 0 (key_bytes a) }
{
    out[..I64_SIZE].copy_from_slice(&a.to_le_bytes());
}

// The N bytes at `at`.
fn bytes_at<const N: usize>(bytes: &[u8], at: usize) -> [u8; N]
    requires { at + N ≤ length bytes.now }
    ensures { result ≡ take N (drop at bytes.now) }
{
    let mut part = [0; N];
    part.copy_from_slice(&bytes[at..at + N]);
    part
}

// Reads a number from the 4 bytes at `at`.
pub fn u32_at(bytes: &[u8], at: usize) -> u64
    requires { at + u32_size ≤ length bytes.now }
    ensures { (result ≡ number_in (take u32_size (drop at bytes.now))) × (result < 4294967296) }
{
    let all: [u8; U32_SIZE] = bytes_at(bytes, at);
    u64::from(u32::from_le_bytes(all))
}

// Reads an i64 from the bytes at `at`.
pub fn key_at(bytes: &[u8], at: usize) -> i64
    requires { at + i64_size ≤ length bytes.now }
    ensures { result ≡ key_of (take i64_size (drop at bytes.now)) }
{
    let all: [u8; I64_SIZE] = bytes_at(bytes, at);
    i64::from_le_bytes(all)
}
