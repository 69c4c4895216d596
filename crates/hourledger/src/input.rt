// Bytes that are read to their end. A read that fails is told apart from the end, and so is a text that is too long.
ghost use Rattle.hourledger.specs.InnerInput.{Held};

use std::io;
use std::io::Read;

// Why there is no whole text: it is too long, or a read failed.
#[derive(Drop)]
pub enum NoText {
    TooLong,
    Failed(io::Error),
}

impl From<io::Error> for NoText {
    fn from(error: io::Error) -> NoText {
        NoText::Failed(error)
    }
}

// Reads to the end, into lent bytes that have room for one byte more than is taken, and answers how many bytes there are.
// Each turn leaves less room.
pub fn read_all<R: Read>(reader: &mut R, bytes: &mut [u8]) -> Result<usize, NoText>
    ensures { Held result bytes.new }
{
    let mut n = 0;
    while n < bytes.len() {
        let more = reader.read(&mut bytes[n..])?;
        if more == 0 {
            return Ok(n);
        }
        n += more;
    }
    Err(NoText::TooLong)
}
