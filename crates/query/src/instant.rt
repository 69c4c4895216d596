// ONE INSTANT of a query: whether it is in the result.
ghost use Rattle.std.specs.Prelude.{◌≡◌};
ghost use Rattle.key.specs.Range.{half_open};
ghost use Rattle.outcomes.specs.Stored.{Sound};
ghost use Rattle.outcomes.specs.Lent.{of_ref};
ghost use Rattle.query.specs.Answers.{query_at_sound, query_at};

use crate::formed::are_formed;
use crate::inquiry::Inquiry;
use crate::walk::walk_at;
use answers::Refusal;
use outcomes::{Stored, StoredRef};
use query_text::reader::{Reading, read_query};

// THE UNCHECKED DOOR: the maps must be sound. Inlined, as that of the ranges is.
#[inline(always)]
pub fn query_at_unchecked(
    a: &StoredRef,
    b: &StoredRef,
    start: i64,
    end: i64,
    bytes: &[u8],
    key: i64,
) -> Result<bool, Refusal>
    requires { Sound half_open (of_ref a.now) × Sound half_open (of_ref b.now) }
    ensures { result ≡ query_at_sound (of_ref a.now) (of_ref b.now) start end bytes.now key }
{
    if start >= end {
        return Err(Refusal::EmptyRange);
    }
    let Reading::Got(_, table) = read_query(bytes) else {
        return Err(Refusal::BadQuery);
    };
    let asked = Inquiry {
        a: *a,
        b: *b,
        table,
        end,
    };
    if key < start || key >= end {
        return Ok(false);
    }
    let c = asked.cell_at(walk_at(key));
    Ok(c.yes)
}

// Any two maps are taken.
pub fn query_at(
    a: &Stored,
    b: &Stored,
    start: i64,
    end: i64,
    bytes: &[u8],
    key: i64,
) -> Result<bool, Refusal>
    ensures { result ≡ query_at a.now b.now start end bytes.now key }
{
    if !are_formed(a, b) {
        return Err(Refusal::NotFormed);
    }
    query_at_unchecked(&a.lent(), &b.lent(), start, end, bytes, key)
}
