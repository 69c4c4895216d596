// THE WALK along the instants of two half-open maps: where it stands, and where the query changes between true and false.
ghost use Rattle.std.specs.Prelude.{◌≡◌, true, ◌≤◌, ◌<◌};
ghost use Rattle.key.specs.Rank.{rank};
ghost use Rattle.query.specs.InnerSeen.{Sees};
ghost use Rattle.query.specs.InnerWalk.{NoBits, Silent, Stands, Begins, firsts, seconds, Cells, Edges};

use crate::inquiry::Inquiry;
use crate::seen::{Seen, look};
use query_text::truth::Truth;

// Where a walk is: a key, and in each map a place that trails it, so that a walk need not look at both.
#[derive(Clone, Copy)]
pub struct Walk {
    pub key: i64,
    pub a: usize,
    pub b: usize,
}

// Whether the table says yes from a key on, and where that ends.
#[derive(Clone, Copy)]
pub struct Cell {
    pub yes: bool,
    pub next: Walk,
}

// The walk that begins at a key. No place is passed before it is looked at.
pub fn walk_at(key: i64) -> Walk
    ensures { Begins key result }
{
    Walk { key, a: 0, b: 0 }
}

// Whether 11 bits of a word, from bit `i` on, are all 0.
fn is_clear(word: u64, i: usize) -> bool
    requires { i < 64 }
    ensures { result ≡ true → NoBits word i }
{
    (word >> i) % 2048 == 0
}

// Whether a table says no of a class of the first map, whatever the second holds. A class has 11 bits; those of class 5 lie in both words.
// No `match`, which is compiled to ask for class 5 first, while most values are below it: a whole query took 1.05 times as long.
fn is_silent(t: Truth, class: usize) -> bool
    requires { class ≤ 10 }
    ensures { result ≡ true → Silent t class }
{
    if class < 5 {
        return is_clear(t.low, 11 * class);
    }
    if class > 5 {
        return is_clear(t.high, 11 * class - 64);
    }
    t.high % 4 == 0 && is_clear(t.low, 55)
}

impl Inquiry<'_> {
    // The cell where the maps show `x` and `y`: it goes on as long as both hold the same.
    // It has two callers, and is compiled into each: see `quick_cell`.
    #[inline(always)]
    fn cell_of(&self, w: Walk, x: Seen, y: Seen) -> Cell
        requires { Sees (firsts self.now) (rank w.key) (rank self.now.end) (rank x.until) x.class x.place
            × Sees (seconds self.now) (rank w.key) (rank self.now.end) (rank y.until) y.class y.place }
        ensures { Cells self.now.table (firsts self.now) (seconds self.now) (rank w.key) (rank self.now.end) result }
    {
        Cell {
            yes: self.table.says(x.class, y.class),
            next: Walk {
                key: key::min(x.until, y.until),
                a: x.place,
                b: y.place,
            },
        }
    }

    // The cell at a walk.
    #[inline(always)]
    pub fn cell_at(&self, w: Walk) -> Cell
        requires { Stands (firsts self.now) (seconds self.now) w × (rank w.key < rank self.now.end) }
        ensures { Cells self.now.table (firsts self.now) (seconds self.now) (rank w.key) (rank self.now.end) result }
    {
        let x = look(&self.a, w.a, w.key, self.end);
        let y = look(&self.b, w.b, w.key, self.end);
        self.cell_of(w, x, y)
    }

    // The same, but where the table is silent the cell goes on as long as the first map holds the same, without a look at the second.
    // For the writing alone. It is compiled into that, as `cell_of` is, so that each step stays in registers: with a call a query took 1.8 times as long.
    #[inline(always)]
    pub fn quick_cell(&self, w: Walk) -> Cell
        requires { Stands (firsts self.now) (seconds self.now) w × (rank w.key < rank self.now.end) }
        ensures { Cells self.now.table (firsts self.now) (seconds self.now) (rank w.key) (rank self.now.end) result }
    {
        let x = look(&self.a, w.a, w.key, self.end);
        if !is_silent(self.table, x.class) {
            return self.cell_of(w, x, look(&self.b, w.b, w.key, self.end));
        }
        Cell {
            yes: false,
            next: Walk {
                key: x.until,
                a: x.place,
                b: w.b,
            },
        }
    }

    // THE EDGE: the first key from the walk on, before the end, where the table says `so`; the end if there is none.
    pub fn edge(&self, w: Walk, so: bool) -> Walk
        requires { Stands (firsts self.now) (seconds self.now) w × (rank w.key ≤ rank self.now.end) }
        ensures { Edges self.now.table (firsts self.now) (seconds self.now) (rank w.key) (rank self.now.end) so result }
    {
        let mut here = w;
        while here.key < self.end {
            let c = self.cell_at(here);
            if c.yes == so {
                return here;
            }
            here = c.next;
        }
        here
    }
}
