// What is said of a refusal.
ghost use Rattle.filling.specs.Filling.{AddsWithin};
ghost use Rattle.command.specs.Words.{refusal_text};

use filling::fill;

// The most bytes that it takes: a number of 20 bytes, and a newline in a text with a hole.
pub const REFUSAL_ROOM: usize = 22;

// It is put at the start of lent bytes, and its length is answered.
pub fn refusal_text(answer: u8, out: &mut [u8; REFUSAL_ROOM]) -> usize
    ensures { AddsWithin 22 (refusal_text answer) out.old 0 out.new result }
{
    fill(out, 0, b"{\n", &[u64::from(answer)])
}
