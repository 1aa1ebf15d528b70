//! The walk to a rotation.
ghost use Rattle.std.specs.Prelude.{◌≡◌, ℕ, ◌<◌, ◌≤◌, length, slice_index, slice_range};

use crate::cells::{NONE, cell, put, told};
use crate::marks::Marks;
use std::ops::Range;

// A walk from second to second: the place of the second of each door, the doors passed, and when each was.
// stays: a rule of the project: parts of one lent slice of numbers
#[derive(Drop)]
pub(crate) struct Walk<'a> {
    pub(crate) second: &'a mut [u16],
    pub(crate) sequence: &'a mut [u16],
    pub(crate) seen: &'a mut [u16],
    ghost sequence_room: { length sequence.now ≡ length second.now },
    ghost seen_room: { length seen.now ≡ length second.now },
}

// Doors of a walk, and for each door of the level the place of its second.
#[derive(Clone, Copy)]
pub(crate) struct Rotation<'a> {
    pub(crate) doors: &'a [u16],
    pub(crate) second: &'a [u16],
}

impl Rotation<'_> {
    // The place of the second on the list of x.
    pub(crate) fn second_place(self, x: u16) -> u16
        ensures { result ≡ slice_index self.entry.second.now x }
    {
        cell(self.second, x as usize, 0)
    }
}

impl Walk<'_> {
    ghost use Rattle.linker.specs.Tables.{Told};
    ghost use Rattle.linker.specs.Meanings.{lists_in};
    ghost use Rattle.linker.specs.Rounds.{Rotates};
    ghost use Rattle.linker.specs.Parts.{DoubleIn, LoweredBy};

    // When the walk passed x.
    fn passed(&self, x: u16) -> Option<u16>
        ensures { Told self.now.seen.now x result }
    {
        told(self.seen, x as usize)
    }

    // No second is known yet.
    pub(crate) fn begin(&mut self)
        ensures none { (x : ℕ) → slice_index self.new.second.now x ≡ 0 }
        ensures room { length self.new.second.now ≡ length self.old.second.now }
    {
        self.second.fill(0);
    }

    // Walks from door d, each time to the last on the list of the second, until a door comes again. The answer says where in `sequence`
    // the doors that come again begin and end.
    pub(crate) fn find_rotation(&mut self, marks: &Marks<'_>, d: u16) -> Range<u16>
        requires door { d < marks.now.tables.count }
        requires lowered { LoweredBy d marks.now self.old }
        requires double { DoubleIn d marks.now }
        requires room { length self.old.second.now ≡ marks.now.tables.count }
        ensures rotates { Rotates (lists_in marks.now.tables) marks.now.holder.now self.new.second.now (slice_range self.new.sequence.now result.start result.end) }
        ensures lowered { LoweredBy d marks.now self.new }
        ensures ordered { result.start ≤ result.end }
        ensures within { result.end ≤ length self.new.sequence.now }
        ensures room { length self.new.second.now ≡ marks.now.tables.count }
    {
        self.seen.fill(NONE);
        let mut x = d;
        // stays: a rule of the project: the sequence is lent memory, and the count is also the mark of each door passed
        let mut len = 0;
        loop {
            if let Some(start) = self.passed(x) {
                return start..len;
            }
            put(self.seen, x as usize, len);
            put(self.sequence, len as usize, x);
            x = marks.onward(self.second, x);
            len += 1;
        }
    }

    // The doors that were passed from one step to another.
    pub(crate) fn rotation(&self, steps: Range<u16>) -> Rotation<'_>
        requires ordered { steps.start ≤ steps.end }
        requires within { steps.end ≤ length self.now.sequence.now }
        ensures doors { result.doors.now ≡ slice_range self.now.sequence.now steps.start steps.end }
        ensures second { result.second.now ≡ self.now.second.now }
    {
        Rotation {
            doors: &self.sequence[steps.start as usize..steps.end as usize],
            second: &*self.second,
        }
    }
}
