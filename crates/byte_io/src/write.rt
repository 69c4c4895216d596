// The writer of document 01's byte form. Nothing is written before it is known that the map is well formed and that the lent output is long enough.
ghost use Rattle.std.specs.Prelude.{◌≡◌, ◌≤◌};
ghost use Rattle.std.proofs.lemmas.List.Edits.{sets};
ghost use Rattle.key.specs.Range.{half_open};
ghost use Rattle.outcomes.specs.Stored.{places, Sound};
ghost use Rattle.byte_form.specs.Layout.{rm01, head_size};
ghost use Rattle.byte_form.specs.Form.{entries_of, ranges_bytes, form_of, output, into_output, write, Wrote};
ghost use Rattle.byte_io.specs.InnerWrite.{OutputRoom};

use answers::Refusal;
use byte_form::rm01::{RANGE_SIZE, form_size, put_head, put_range};
use key::RangeKind;
use outcomes::{Count, Stored};
use store::check::well_formed;

// Range after range, each into its own bytes.
fn write_ranges(m: &Stored, out: &mut [u8])
    requires { OutputRoom rm01 m.now out.old }
    ensures { out.new ≡ sets out.old (head_size rm01) (ranges_bytes rm01 (entries_of m.now)) }
{
    for i in 0..m.count {
        let at = form_size(i);
        put_range(
            &mut out[at..at + RANGE_SIZE],
            m.starts[i],
            m.ends[i],
            m.values[i],
        );
    }
}

// The form of a well-formed map, and its length.
fn write_formed(m: &Stored, out: &mut [u8]) -> Result<usize, Refusal>
    requires { Sound half_open m.now × (m.now.count ≤ places) }
    ensures { output result out.new ≡ into_output (form_of rm01 m.now) out.old }
{
    let n = form_size(m.count);
    if out.len() < n {
        return Err(Refusal::TooShort);
    }
    put_head(out, m.count);
    write_ranges(m, out);
    Ok(n)
}

// The form of any map.
pub fn write(m: &Stored, out: &mut [u8]) -> Result<usize, Refusal>
    ensures { output result out.new ≡ write rm01 m.now out.old }
{
    if !well_formed(RangeKind::HalfOpen, m) {
        return Err(Refusal::NotFormed);
    }
    write_formed(m, out)
}

// The same answer as a struct of numbers: what C and Rust see.
pub fn write_number(m: &Stored, out: &mut [u8]) -> Count
    ensures { Wrote result out.new (write rm01 m.now out.old) }
{
    Count::from(write(m, out))
}
