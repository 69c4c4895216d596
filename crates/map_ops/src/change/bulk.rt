// Bulk insert: in list order, up to the first refusal. The map is checked once.
ghost use Rattle.std.specs.Prelude.{◌≡◌, min, length};
ghost use Rattle.key.specs.Range.{kind_of};
ghost use Rattle.outcomes.specs.Stored.{Sound, stored};
ghost use Rattle.outcomes.specs.Outcomes.{entries, bulk_insert_sound, extended, bulk_insert};

use answers::DONE;
use key::{RangeKind, Value};
use outcomes::{Applied, Stored};
use store::check::checked;

// The entries of three lent lists, into a map that is well formed.
fn extend_formed(
    kind: RangeKind,
    m: &mut Stored,
    new_starts: &[i64],
    new_ends: &[i64],
    new_values: &[Value],
) -> Applied
    requires { Sound (kind_of kind) m.old }
    ensures { extended result m.new
        ≡ bulk_insert_sound (kind_of kind) m.old 0 (entries new_starts.now new_ends.now new_values.now) }
{
    let n = new_starts.len().min(new_ends.len()).min(new_values.len());
    for i in 0..n {
        let went = edit::insert(kind, m, new_starts[i], new_ends[i], new_values[i]);
        if let Err(why) = went {
            return Applied {
                answer: why.number(),
                applied: i,
            };
        }
    }
    Applied {
        answer: DONE,
        applied: n,
    }
}

// The same, into any map.
pub fn extend(
    kind: RangeKind,
    m: &mut Stored,
    new_starts: &[i64],
    new_ends: &[i64],
    new_values: &[Value],
) -> Applied
    ensures { extended result m.new
        ≡ bulk_insert (kind_of kind) m.old (entries new_starts.now new_ends.now new_values.now) }
{
    if let Err(why) = checked(kind, m) {
        return Applied {
            answer: why.number(),
            applied: 0,
        };
    }
    extend_formed(kind, m, new_starts, new_ends, new_values)
}
