// What is asked of two maps.
ghost use Rattle.key.specs.Range.{half_open};
ghost use Rattle.outcomes.specs.Stored.{Sound};
ghost use Rattle.outcomes.specs.Lent.{of_ref};

use outcomes::StoredRef;
use query_text::truth::Truth;

// Two sound maps, the table of a query of them, and the key up to which it is asked.
#[derive(Clone, Copy)]
pub struct Inquiry<'a> {
    pub a: StoredRef<'a>,
    pub b: StoredRef<'a>,
    pub table: Truth,
    pub end: i64,
    ghost sound_a: { Sound half_open (of_ref a) },
    ghost sound_b: { Sound half_open (of_ref b) },
}
