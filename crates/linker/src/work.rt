//! The lent memory that the two-way linker works in, in named parts; and the rotations, one after the other.
ghost use Rattle.std.specs.Prelude.{◌≡◌, ℕ, ◌+◌, ◌*◌, ◌<◌, ◌≤◌, length};
ghost use Rattle.linker.specs.Holders.{lasts};

use crate::marks::{Emptied, Marks};
use crate::tables::Tables;
use crate::walk::Walk;

// All that the linker works on.
#[derive(Drop)]
pub(crate) struct Work<'a> {
    pub(crate) marks: Marks<'a>,
    pub(crate) walk: Walk<'a>,
    ghost walk_room: { length walk.second.now ≡ marks.tables.count },
}

impl<'a> Work<'a> {
    // Work on these tables in lent memory.
    pub(crate) fn in_memory(tables: Tables<'a>, memory: &'a mut [u16]) -> Work<'a>
        requires { 6 * tables.count ≤ length memory.old }
        ensures tables { result.marks.tables ≡ tables.entry }
        ensures own { (x : ℕ) → lasts result.marks.holder.now x ≡ x }
    {
        let n = tables.count as usize;
        let (keep, rest) = memory.split_at_mut(n);
        let (holder, rest) = rest.split_at_mut(n);
        let (first, rest) = rest.split_at_mut(n);
        let (second, rest) = rest.split_at_mut(n);
        let (sequence, rest) = rest.split_at_mut(n);
        let (seen, _) = rest.split_at_mut(n);
        keep.copy_from_slice(tables.sizes);
        for (x, last) in holder.iter_mut().enumerate() {
            *last = x as u16;
        }
        first.fill(0);
        let marks = Marks {
            tables,
            keep,
            holder,
            first,
        };
        let walk = Walk {
            second,
            sequence,
            seen,
        };
        Work { marks, walk }
    }
}

impl Work<'_> {
    ghost use Rattle.linker.specs.Parts.{OnTheWayIn, DoubleIn, LoweredIn, SettledTo, RotatedTo};

    // Finds the rotation from door d, the lowest with two doors or more on its list, and eliminates it.
    fn rotate(&mut self, d: u16) -> Result<(), Emptied>
        requires door { d < self.old.marks.tables.count }
        requires lowered { LoweredIn d self.old }
        requires double { DoubleIn d self.old.marks }
        ensures tables { self.new.marks.tables ≡ self.old.marks.tables }
        ensures rotated { RotatedTo d self.old self.new result }
    {
        let steps = self.walk.find_rotation(&self.marks, d);
        let rotation = self.walk.rotation(steps);
        self.marks.eliminate(rotation);
        self.marks.check_seconds(rotation)
    }

    // Eliminates rotations until door d has one door at most on its list.
    fn settle(&mut self, d: u16) -> Result<(), Emptied>
        requires door { d < self.old.marks.tables.count }
        requires lowered { LoweredIn d self.old }
        ensures tables { self.new.marks.tables ≡ self.old.marks.tables }
        ensures settled { SettledTo (d + 1) self.new result }
    {
        while self.marks.has_two(d) {
            self.rotate(d)?;
        }
        Ok(())
    }

    // Eliminates rotations until no list has two doors.
    pub(crate) fn reduce(&mut self) -> Result<(), Emptied>
        requires way { OnTheWayIn self.old.marks }
        ensures tables { self.new.marks.tables ≡ self.old.marks.tables }
        ensures settled { SettledTo self.new.marks.tables.count self.new result }
    {
        self.walk.begin();
        for d in 0..self.marks.tables.count {
            self.settle(d)?;
        }
        Ok(())
    }
}
