//! The proposals of the exits.
ghost use Rattle.std.specs.Prelude.{◌≡◌, ℕ, ◌+◌, ◌*◌, ◌<◌, ◌≤◌, ◌==◌, true, Some, None, length, slice_index, slice_index_or};
ghost use Rattle.matching.specs.Lists.{row};
ghost use Rattle.matching.specs.Linkings.{exit, entrance, listed, counts_one_way};
ghost use Rattle.matching.specs.Proposals.{OneWayResult};
ghost use Rattle.linker.specs.Meanings.{lists_in};
ghost use Rattle.linker.specs.Tables.{Told};
ghost use Rattle.linker.specs.Turns.{NextPlace};
ghost use Rattle.linker.specs.Parts.{GoingBy};

use crate::cells::{NONE, cell, put, told};
use crate::tables::Tables;

// stays: a rule of the project: callers lend sides as bytes; a byte above these two was refused before
const EXIT: u8 = 0;

const ENTRANCE: u8 = 1;

// The tables, and the side of each door.
#[derive(Clone, Copy)]
pub(crate) struct Sided<'a> {
    pub(crate) tables: Tables<'a>,
    pub(crate) sides: &'a [u8],
}

impl Sided<'_> {
    // Whether door x is an exit.
    #[tactic(auto, unfolding(matching::specs::Linkings::exit))]
    fn is_exit(self, x: u16) -> bool
        ensures { result ≡ exit self.entry.sides.now x }
    {
        self.sides.get(x as usize).is_some_and(|side| *side == EXIT)
    }

    // Whether door y is an entrance.
    #[tactic(auto, unfolding(matching::specs::Linkings::entrance))]
    fn is_entrance(self, y: u16) -> bool
        ensures { result ≡ entrance self.entry.sides.now y }
    {
        self.sides
            .get(y as usize)
            .is_some_and(|side| *side == ENTRANCE)
    }

    // Whether the door y, on the list of the exit x, is an entrance that has x on its own list.
    fn takes(self, x: u16, y: u16) -> bool
        requires asks { exit self.sides.now x ≡ true }
        requires listed { listed (lists_in self.tables) x y ≡ true }
        ensures { result ≡ counts_one_way (lists_in self.entry.tables) self.entry.sides.now x y }
    {
        self.is_entrance(y) && self.tables.place(y, x) != NONE
    }

    // The next place, from `start` on, of the list of the exit x whose door takes x.
    fn next_place(self, x: u16, start: u16) -> Option<u16>
        requires asks { exit self.sides.now x ≡ true }
        requires door { x < self.tables.count }
        requires within { start ≤ length (row (lists_in self.tables) x) }
        ensures { NextPlace (lists_in self.entry.tables) self.entry.sides.now x start result }
    {
        // stays: tried as `(start..size).find(..)`: the check did not see that no place before the one found has such a door
        for k in start..self.tables.size(x) {
            if self.takes(x, self.tables.door(x, k)) {
                return Some(k);
            }
        }
        None
    }
}

// The exits on their way: how far each has come on its list, which exit each door holds, and how many proposals were made.
// stays: a rule of the project: parts of one lent slice of numbers
#[derive(Drop)]
pub(crate) struct Exits<'a> {
    pub(crate) sided: Sided<'a>,
    pub(crate) next: &'a mut [u16],
    pub(crate) held: &'a mut [u16],
    pub(crate) made: u16,
}

impl<'a> Exits<'a> {
    // No exit has proposed yet.
    pub(crate) fn in_memory(tables: Tables<'a>, sides: &'a [u8], memory: &'a mut [u16]) -> Exits<'a>
        requires { 2 * tables.count ≤ length memory.old }
        ensures tables { result.sided.tables ≡ tables.entry }
        ensures sides { result.sided.sides.now ≡ sides.now }
        ensures going { GoingBy 0 None result }
    {
        let n = tables.count as usize;
        let (next, rest) = memory.split_at_mut(n);
        let (held, _) = rest.split_at_mut(n);
        next.fill(0);
        held.fill(NONE);
        let sided = Sided { tables, sides };
        let made = 0;
        Exits {
            sided,
            next,
            held,
            made,
        }
    }
}

impl Exits<'_> {
    // How far x has come on its list.
    fn next(&self, x: u16) -> u16
        ensures { result ≡ slice_index self.now.next.now x }
    {
        cell(self.next, x as usize, 0)
    }

    // The exit that y holds.
    fn held_by(&self, y: u16) -> Option<u16>
        ensures { Told self.now.held.now y result }
    {
        told(self.held, y as usize)
    }

    // The exit x asks the next door on its list that may be linked with it; that door takes x in, or keeps the exit that it holds. The
    // answer is the exit that nobody holds then: x itself, or whom the door let go.
    fn propose(&mut self, x: u16) -> Option<u16>
        requires going { (d : ℕ) × GoingBy d (Some x) self.old }
        ensures sided { self.new.sided ≡ self.old.sided }
        ensures going { (d : ℕ) → GoingBy d (Some x) self.old → GoingBy d result self.new }
        ensures counted { (z : ℕ) → result ≡ Some z → self.new.made ≡ self.old.made + 1 }
    {
        let Some(k) = self.sided.next_place(x, self.next(x)) else {
            return None;
        };
        let tables = self.sided.tables;
        let y = tables.door(x, k);
        let held = self.held_by(y);
        self.made += 1;
        put(self.next, x as usize, k + 1);
        if let Some(z) = held {
            if tables.place(y, z) < tables.place(y, x) {
                return Some(x);
            }
        }
        put(self.held, y as usize, x);
        held
    }

    // The exit `first` proposes, and then whoever nobody holds, until nobody is on its way.
    // stays: alike `propose_from` of all doors, but each keeps the facts of its own procedure, which a trait would say again
    fn propose_from(&mut self, first: u16)
        requires exit { exit self.old.sided.sides.now first ≡ true }
        requires door { first < self.old.sided.tables.count }
        requires going { GoingBy first None self.old }
        ensures sided { self.new.sided ≡ self.old.sided }
        ensures going { GoingBy (first + 1) None self.new }
    {
        let mut x = first;
        while let Some(next) = self.propose(x) {
            x = next;
        }
    }

    // Every exit proposes.
    pub(crate) fn propose_all(&mut self)
        requires { GoingBy 0 None self.old }
        ensures sided { self.new.sided ≡ self.old.sided }
        ensures going { GoingBy self.new.sided.tables.count None self.new }
    {
        for x in 0..self.sided.tables.count {
            if self.sided.is_exit(x) {
                self.propose_from(x);
            }
        }
    }

    // Writes each door's partner: a door that holds an exit and that exit have each other, the others nobody.
    pub(crate) fn write_partners(&self, out: &mut [u16])
        requires going { GoingBy self.now.sided.tables.count None self.now }
        requires room { length out.old ≡ self.now.sided.tables.count }
        ensures { OneWayResult (lists_in self.now.sided.tables) self.now.sided.sides.now out.new self.now.made }
    {
        out.fill(NONE);
        for (y, x) in self.held.iter().enumerate() {
            if *x != NONE {
                put(out, y, *x);
                put(out, *x as usize, y as u16);
            }
        }
    }
}
