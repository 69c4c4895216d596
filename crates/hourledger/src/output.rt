// What is printed: text that is proved, at the start of lent bytes.
ghost use Rattle.std.specs.Prelude.{◌≤◌, length};

use answers::Refusal;
use command::said::{REFUSAL_ROOM, refusal_text};
use std::io;
use std::io::Write;

// A line on standard error that says why something was not done. Where that fails too, there is nobody left to tell.
pub fn fail(rt: &HostRuntime, what: &[u8], error: &io::Error) {
    let _ = rt.stderr().write_all(what);
    let _ = eprintln!(rt; ": {error}");
}

// The number of the bytes stands beside them: docs/EXCEPTIONS has `print` and `print_error` so, which may not change.
// Bytes to a stream, all at once. What could not be written is said: a form that is cut short must not pass for a whole one.
fn put<W: Write + Drop>(rt: &HostRuntime, mut stream: W, name: &[u8], bytes: &[u8], n: usize)
    requires { n ≤ length bytes.now }
{
    if let Err(e) = stream.write_all(&bytes[..n]) {
        fail(rt, name, &e);
    }
}

// On standard output.
pub fn print(rt: &HostRuntime, bytes: &[u8], n: usize)
    requires { n ≤ length bytes.now }
{
    put(rt, rt.stdout(), b"standard output", bytes, n);
}

// On standard error.
pub fn print_error(rt: &HostRuntime, bytes: &[u8], n: usize)
    requires { n ≤ length bytes.now }
{
    put(rt, rt.stderr(), b"standard error", bytes, n);
}

// The number of a refusal.
pub fn refuse(rt: &HostRuntime, why: Refusal) {
    let mut out = [0u8; REFUSAL_ROOM];
    let n = refusal_text(why.number(), &mut out);
    print(rt, &out, n);
}
