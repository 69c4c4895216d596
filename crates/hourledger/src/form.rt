// A byte form: read to its end, and loaded into a map.
ghost use Rattle.std.specs.Prelude.{◌≤◌, length, OnOk};
ghost use Rattle.outcomes.specs.InnerOutcome.{Leaves};
ghost use Rattle.byte_form.specs.Layout.{rm01};
ghost use Rattle.byte_form.specs.Form.{read};
ghost use Rattle.hourledger.specs.InnerInput.{Loaded};

use crate::input::read_all;
use answers::Refusal;
use byte_form::rm01::LONGEST;
use outcomes::Stored;
use std::io::Read;

// The longest form, and a byte more.
pub const ROOM: usize = LONGEST + 1;

// Reads a form. What is too long, or is not read to its end, is taken as bytes that are longer than any form.
pub fn read_form<R: Read>(reader: &mut R, bytes: &mut [u8; ROOM]) -> usize
    ensures { result ≤ length bytes.new }
{
    match read_all(reader, bytes) {
        Ok(n) => n,
        Err(_) => ROOM,
    }
}

// Loads a form, and then its map is sound.
pub fn load(form: &[u8], m: &mut Stored) -> Result<(), Refusal>
    ensures leaves { Leaves result m.new (read rm01 m.old form.now) }
    ensures loaded { OnOk result (Loaded m.new) }
{
    byte_io::read::read(m, form)
}
