// THE RANGES of a query: the true instants of a window, as maximal ranges, ascending.
ghost use Rattle.std.specs.Prelude.{◌≡◌};
ghost use Rattle.key.specs.Range.{half_open};
ghost use Rattle.outcomes.specs.Stored.{Sound};
ghost use Rattle.outcomes.specs.Lent.{of_ref};
ghost use Rattle.range_list.specs.InnerLists.{wrote};
ghost use Rattle.query.specs.Answers.{query_ranges_sound, query_ranges};

use crate::formed::are_formed;
use crate::inquiry::Inquiry;
use crate::walk::walk_at;
use answers::Refusal;
use outcomes::{Stored, StoredRef};
use query_text::reader::{Reading, read_query};
use range_list::shorter;

// THE UNCHECKED DOOR: the maps must be sound. Nothing is written before it is known that the lent lists are long enough.
// Inlined, so that columns of 512 places, as callers lend them, are found by one register.
#[inline(always)]
pub fn query_unchecked(
    a: &StoredRef,
    b: &StoredRef,
    start: i64,
    end: i64,
    bytes: &[u8],
    out_starts: &mut [i64],
    out_ends: &mut [i64],
) -> Result<usize, Refusal>
    requires { Sound half_open (of_ref a.now) × Sound half_open (of_ref b.now) }
    ensures { wrote result out_starts.new out_ends.new
        ≡ query_ranges_sound (of_ref a.now) (of_ref b.now) start end bytes.now out_starts.old out_ends.old }
{
    if start >= end {
        return Err(Refusal::EmptyRange);
    }
    let Reading::Got(_, table) = read_query(bytes) else {
        return Err(Refusal::BadQuery);
    };
    let asked = Inquiry {
        a: *a,
        b: *b,
        table,
        end,
    };
    let w = walk_at(start);
    let room = shorter(out_starts.len(), out_ends.len());
    if !asked.fits(w, room) {
        return Err(Refusal::TooShort);
    }
    Ok(asked.write(w, out_starts, out_ends))
}

// Any two maps are taken.
pub fn query(
    a: &Stored,
    b: &Stored,
    start: i64,
    end: i64,
    bytes: &[u8],
    out_starts: &mut [i64],
    out_ends: &mut [i64],
) -> Result<usize, Refusal>
    ensures { wrote result out_starts.new out_ends.new
        ≡ query_ranges a.now b.now start end bytes.now out_starts.old out_ends.old }
{
    if !are_formed(a, b) {
        return Err(Refusal::NotFormed);
    }
    query_unchecked(
        &a.lent(),
        &b.lent(),
        start,
        end,
        bytes,
        out_starts,
        out_ends,
    )
}
