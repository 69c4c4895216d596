// `ranges`: the ranges of a form.
ghost use Rattle.std.specs.Prelude.{◌≤◌};
ghost use Rattle.outcomes.specs.Stored.{places};

use crate::form::{ROOM, load, read_form};
use crate::output::{print, refuse};
use outcomes::Stored;
use range_text::{RANGES_ROOM, ranges_text};

fn show(rt: &HostRuntime, m: &Stored)
    requires { m.now.count ≤ places }
{
    let mut out = [0u8; RANGES_ROOM];
    let n = ranges_text(m, &mut out);
    print(rt, &out, n);
}

fn of_form(rt: &HostRuntime, form: &[u8]) {
    let mut m = Stored::new();
    match load(form, &mut m) {
        Ok(()) => show(rt, &m),
        Err(why) => refuse(rt, why),
    }
}

pub fn run(rt: &HostRuntime) {
    let mut bytes = [0u8; ROOM];
    let n = read_form(&mut rt.stdin(), &mut bytes);
    of_form(rt, &bytes[..n]);
}
