// The ranges of true instants from a walk on: whether there is room for them, and their writing.
ghost use Rattle.std.specs.Prelude.{◌≡◌, false, ◌≤◌, ◌<◌, length};
ghost use Rattle.key.specs.Rank.{rank};
ghost use Rattle.outcomes.specs.Lent.{of_ref};
ghost use Rattle.query.specs.InnerWalk.{Stands, firsts, seconds};
ghost use Rattle.query.specs.InnerWritten.{Counts, Bounded, Measures, HasRoom, Shuts, Writes};

use crate::inquiry::Inquiry;
use crate::walk::Walk;
use range_list::put;
use two_sets::{pick, roomy};

// Writes the range from `start` up to `key`, if there is one and it does not go on. Answers the place for the next.
fn shut(
    out_starts: &mut [i64],
    out_ends: &mut [i64],
    n: usize,
    on: bool,
    start: i64,
    key: i64,
) -> usize
    requires { on ≡ false → rank start < rank key → (n < length out_starts.old) × (n < length out_ends.old) }
    ensures { Shuts on n (rank start) (rank key) out_starts.old out_ends.old result out_starts.new out_ends.new }
{
    if key <= start || on {
        return n;
    }
    put(out_starts, out_ends, n, start, key);
    n + 1
}

impl Inquiry<'_> {
    // How many ranges there are from the walk on, before the end.
    fn count(&self, w: Walk) -> usize
        requires { Stands (firsts self.now) (seconds self.now) w × (rank w.key ≤ rank self.now.end) }
        ensures { Counts self.now.table (firsts self.now) (seconds self.now) (rank w.key) (rank self.now.end) result }
    {
        let mut n = 0;
        let mut s = self.edge(w, true);
        while s.key < self.end {
            let e = self.edge(s, false);
            n += 1;
            s = self.edge(e, true);
        }
        n
    }

    // Whether `room` places are enough. There is at most one range more than the maps have together, so mostly none is counted.
    pub fn fits(&self, w: Walk, room: usize) -> bool
        requires { Stands (firsts self.now) (seconds self.now) w × (rank w.key ≤ rank self.now.end)
            × Bounded self.now.table (of_ref self.now.a) (of_ref self.now.b) w.key self.now.end }
        ensures { Measures self.now.table (firsts self.now) (seconds self.now) (rank w.key) (rank self.now.end) room result }
    {
        room > 0 && roomy(self.a.count, self.b.count, room - 1) || self.count(w) <= room
    }

    // Writes those ranges, and answers how many they are. The table says yes from `start` on up to the walk: a range that is open, or none.
    // Inlined, since two doors call it: where it is, the columns of a map are found by one register.
    #[inline(always)]
    pub fn write(&self, w: Walk, out_starts: &mut [i64], out_ends: &mut [i64]) -> usize
        requires { Stands (firsts self.now) (seconds self.now) w × (rank w.key ≤ rank self.now.end)
            × HasRoom self.now.table (firsts self.now) (seconds self.now) (rank w.key) (rank self.now.end) 0 out_starts.old out_ends.old }
        ensures { Writes self.now.table (firsts self.now) (seconds self.now)
            (rank w.key) (rank self.now.end) 0 out_starts.old out_ends.old result out_starts.new out_ends.new }
    {
        let mut n = 0;
        let mut start = w.key;
        let mut here = w;
        while here.key < self.end {
            let c = self.quick_cell(here);
            n = shut(out_starts, out_ends, n, c.yes, start, here.key);
            start = pick(c.yes, start, c.next.key);
            here = c.next;
        }
        shut(out_starts, out_ends, n, false, start, self.end)
    }
}
