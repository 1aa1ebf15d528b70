//! What the two-way linker keeps of the lists: the proposals of all doors, and the removals of rotations.
ghost use Rattle.std.specs.Prelude.{◌≡◌, ℕ, ◌<◌, ◌⊎◌, length, slice_index_or};
ghost use Rattle.linker.specs.Meanings.{lists_in};
ghost use Rattle.linker.specs.Holders.{Marked, lasts};

use crate::cells::{NONE, cell, put};
use crate::tables::Tables;
use crate::walk::Rotation;

// A list was emptied: there is no stable linking.
#[derive(Clone, Copy, Drop)]
pub(crate) struct Emptied;

// What is still on the lists: the last door on each, the place of that door, and a place that nothing on the list comes before.
// stays: a rule of the project: parts of one lent slice of numbers
#[derive(Drop)]
pub(crate) struct Marks<'a> {
    pub(crate) tables: Tables<'a>,
    pub(crate) keep: &'a mut [u16],
    pub(crate) holder: &'a mut [u16],
    pub(crate) first: &'a mut [u16],
    // stays: no plainer as fields: whether proposals or rotations are under way changes within the life of one value, so clauses say it
    ghost marked: { Marked (lists_in tables) holder.now keep.now first.now },
}

impl Marks<'_> {
    ghost use Rattle.linker.specs.Holders.{NextKept, Proposed};
    ghost use Rattle.linker.specs.Rounds.{HasTwo, Ahead, Stepped, Rotates, Cut, Keeps};
    ghost use Rattle.linker.specs.Parts.{UnderwayIn, SettlesIn, OnTheWayIn, DoubleIn};
    ghost use Rattle.linker.specs.Links.{WritesTo};

    // The place that nothing on the list of x comes before.
    pub(crate) fn first_place(&self, x: u16) -> u16
        ensures { result ≡ slice_index_or self.now.first.now x 0 }
    {
        cell(self.first, x as usize, 0)
    }

    // The place of the last door on the list of x.
    pub(crate) fn last_place(&self, x: u16) -> u16
        ensures { result ≡ slice_index_or self.now.keep.now x 0 }
    {
        cell(self.keep, x as usize, 0)
    }

    // The last door on the list of x, or x itself.
    pub(crate) fn last(&self, x: u16) -> u16
        ensures { result ≡ slice_index_or self.now.holder.now x x }
    {
        cell(self.holder, x as usize, x)
    }

    // The next place, from `start` on, of a door that is still on the list of door x.
    pub(crate) fn next_kept(&self, x: u16, start: u16) -> Option<u16>
        requires { x < self.now.tables.count }
        ensures { NextKept (lists_in self.now.tables) self.now.keep.now x start result }
    {
        let tables = self.tables;
        let end = tables.size(x).min(self.last_place(x) + 1);
        // stays: tried as `(start..end).find(..)`: the check did not see that no place before the one found has such a door
        for k in start..end {
            let y = tables.door(x, k);
            if tables.place(y, x) <= self.last_place(y) {
                return Some(k);
            }
        }
        None
    }

    // Door x proposes to the first door on its list, which lets go whom it held. The answer is the door that was let go.
    fn propose(&mut self, x: u16) -> Option<u16>
        requires door { x < self.old.tables.count }
        requires under { UnderwayIn self.old }
        ensures tables { self.new.tables ≡ self.old.tables }
        ensures proposed { Proposed (lists_in self.old.tables) x self.old.holder.now self.new.holder.now self.new.keep.now self.new.first.now result }
    {
        let Some(k) = self.next_kept(x, self.first_place(x)) else {
            return None;
        };
        let tables = self.tables;
        let y = tables.door(x, k);
        let held = self.last(y);
        let keep = &mut *self.keep;
        let holder = &mut *self.holder;
        let first = &mut *self.first;
        put(first, x as usize, k);
        if held == x {
            return None;
        }
        put(holder, y as usize, x);
        put(keep, y as usize, tables.place(y, x));
        (held != y).then_some(held)
    }

    // Door p proposes, and then whoever is let go, until nobody is.
    // stays: alike `propose_from` of the exits; each keeps the facts of its own procedure
    fn propose_from(&mut self, p: u16)
        requires door { p < self.old.tables.count }
        requires under { UnderwayIn self.old }
        ensures tables { self.new.tables ≡ self.old.tables }
        ensures under { UnderwayIn self.new }
        ensures settles { (z : ℕ) → (z ≡ p) ⊎ SettlesIn z self.old → SettlesIn z self.new }
    {
        let mut x = p;
        while let Some(next) = self.propose(x) {
            x = next;
        }
    }

    // Every door proposes, until the first door on each list holds that list's door.
    pub(crate) fn propose_all(&mut self)
        requires { (x : ℕ) → lasts self.old.holder.now x ≡ x }
        ensures tables { self.new.tables ≡ self.old.tables }
        ensures way { OnTheWayIn self.new }
    {
        for p in 0..self.tables.count {
            self.propose_from(p);
        }
    }

    // Whether two doors or more are on the list of door x.
    pub(crate) fn has_two(&self, x: u16) -> bool
        requires door { x < self.now.tables.count }
        requires way { OnTheWayIn self.now }
        ensures { HasTwo (lists_in self.now.tables) self.now.holder.now x result }
    {
        let last = self.last_place(x);
        self.next_kept(x, self.first_place(x))
            .is_some_and(|k| k < last)
    }

    // Goes from door x to the last on the list of its second; `second` learns the place of that second.
    pub(crate) fn onward(&self, second: &mut [u16], x: u16) -> u16
        requires door { x < self.now.tables.count }
        requires ahead { Ahead (lists_in self.now.tables) self.now.holder.now second.old }
        requires double { DoubleIn x self.now }
        requires room { length second.old ≡ self.now.tables.count }
        ensures { (f : ℕ) × (y : ℕ) × (at : ℕ) × Stepped (lists_in self.now.tables) self.now.holder.now x second.old second.new result f y at }
    {
        let k = self.next_kept(x, self.first_place(x)).unwrap();
        let start = cell(second, x as usize, 0).max(k + 1);
        let at = self.next_kept(x, start).unwrap();
        put(second, x as usize, at);
        let y = self.tables.door(x, at);
        self.last(y)
    }

    // Eliminates a rotation: each of its doors becomes the last on the list of its second, and its second the first on its own.
    pub(crate) fn eliminate(&mut self, rotation: Rotation<'_>)
        requires { Rotates (lists_in self.old.tables) self.old.holder.now rotation.second.now rotation.doors.now }
        ensures tables { self.new.tables ≡ self.old.tables }
        ensures cut { Cut (lists_in self.old.tables) self.old.holder.now self.new.holder.now rotation.entry.second.now rotation.entry.doors.now }
    {
        let tables = self.tables;
        let keep = &mut *self.keep;
        let holder = &mut *self.holder;
        let first = &mut *self.first;
        for a in rotation.doors {
            let k = rotation.second_place(*a);
            let b = tables.door(*a, k);
            put(holder, b as usize, *a);
            put(keep, b as usize, tables.place(b, *a));
            put(first, *a as usize, k);
        }
    }

    // Checks that each door of the rotation has its second on its list; otherwise that list is empty.
    pub(crate) fn check_seconds(&self, rotation: Rotation<'_>) -> Result<(), Emptied>
        ensures { Keeps rotation.entry.doors.now rotation.entry.second.now self.now.keep.now result }
    {
        if rotation
            .doors
            .iter()
            .any(|a| self.last_place(*a) < rotation.second_place(*a))
        {
            return Err(Emptied);
        }
        Ok(())
    }

    // Writes each door's partner: the last on its list, nobody for a door that is its own.
    pub(crate) fn write_links(&self, out: &mut [u16])
        requires { length out.old ≡ length self.now.holder.now }
        ensures { WritesTo (length self.now.holder.now) self.now.holder.now out.new }
    {
        // stays: zipped with `out.iter_mut()` it was tried, and its proof did not close: without an index the invariant could not say how far the loop came
        for (x, last) in self.holder.iter().enumerate() {
            out[x] = if *last as usize == x { NONE } else { *last };
        }
    }
}
