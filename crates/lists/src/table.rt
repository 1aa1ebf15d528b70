//! The lists of all doors.
ghost use Rattle.std.specs.Prelude.{◌≡◌, ◌≤◌, true, map, length, take, min, ◌&&◌, [], replicate, if◌then◌else◌, nat_lt, slice_set};
ghost use Rattle.matching.specs.Lists.{lawful, place, row, lawful_list};
ghost use Rattle.lists.specs.Rows.{row_list};

use crate::row::Row;
use crate::{MOST_DOORS, ROOM};
use std::array;

/// Lawful lists: `count` doors, a row for each.
// stays: no Model: the law of a source, whose lists are lawful, rests on the ghost fact `sound`, and of a view it would have to hold for every list of lists
#[derive(Drop)]
pub struct ListTable {
    // stays: a count beside an array, for no row is ever added: an ArrayVec would be filled by a loop and written through its slice
    count: u8,
    rows: [Row; ROOM],
    ghost few: { count ≤ 96 },
    ghost whole: { length rows ≡ 96 },
    ghost sound: { lawful (take count (map row_list rows)) ≡ true },
}

impl ListTable {
    ghost use Rattle.lists.specs.Edits.{removed, promoted, cleared, withdrawn};
    ghost use Rattle.lists.specs.Tables.{lists};

    /// `count` doors with empty lists, 96 at most.
    pub fn empty(count: u8) -> ListTable
        ensures { lists result ≡ replicate (min count 96) [] }
    {
        ListTable {
            count: count.min(MOST_DOORS),
            rows: array::from_fn(|_| Row::empty()),
        }
    }

    /// The number of doors.
    pub fn count(&self) -> u8
        ensures { result ≡ length (lists self.now) }
    {
        self.count
    }

    /// The length of a door's list; 0 for a number past the last door.
    pub fn length(&self, door: u8) -> u8
        ensures { result ≡ length (row (lists self.now) door) }
    {
        if door >= self.count {
            return 0;
        }
        self.rows[usize::from(door)].length()
    }

    /// The place of a second door on the first one's list, counted from 0; nothing where it is not listed.
    #[tactic(auto, using(crate::proofs::Whole::rows_length, crate::proofs::Whole::rows_at, crate::proofs::Whole::row_past, crate::proofs::Whole::place_nil, crate::proofs::Whole::place_unknown))]
    pub fn place(&self, door: u8, other: u8) -> Option<u8>
        ensures { result ≡ place (row (lists self.now) door) other }
    {
        if door >= self.count {
            return None;
        }
        if other >= self.count {
            return None;
        }
        self.rows[usize::from(door)].place(other)
    }

    /// Gives a door a new list. Where the door is not one of the level or the list is not lawful, nothing changes and the answer is false.
    // stays: whether the list was taken is a bool, as it is for a set's `insert`; a refused list has nothing to say beside it
    #[tactic(auto, using(crate::proofs::Whole::rows_length, crate::proofs::Whole::rows_set))]
    pub fn put(&mut self, door: u8, list: &[u8]) -> bool
        ensures answer { result ≡ (nat_lt door (length (lists self.old)) && lawful_list (length (lists self.old)) door list.now) }
        ensures after { lists self.new ≡ (if result then slice_set (lists self.old) door list.now else lists self.old) }
    {
        if door >= self.count {
            return false;
        }
        match Row::of(list, self.count, door) {
            Some(row) => {
                self.rows[usize::from(door)] = row;
                true
            }
            None => false,
        }
    }

    /// Takes `other` off the list of `door`. A number past the last door has no list: then nothing changes.
    #[tactic(auto, using(crate::proofs::Whole::rows_at, crate::proofs::Edited::put_lawful, crate::proofs::Edited::lawful_without))]
    pub fn remove(&mut self, door: u8, other: u8)
        ensures { lists self.new ≡ removed door other (lists self.old) }
    {
        if door >= self.count {
            return;
        }
        let list = self.rows[usize::from(door)].without(other);
        let _ = self.put(door, &list);
    }

    /// Moves `other` to the head of the list of `door`, where it is listed.
    #[tactic(auto, using(crate::proofs::Whole::rows_at, crate::proofs::Edited::put_headed))]
    pub fn promote(&mut self, door: u8, other: u8)
        ensures { lists self.new ≡ promoted door other (lists self.old) }
    {
        if door >= self.count {
            return;
        }
        if self.place(door, other).is_none() {
            return;
        }
        let mut list = self.rows[usize::from(door)].without(other);
        list.insert(0, other);
        let _ = self.put(door, &list);
    }

    /// Empties the list of `door`.
    #[tactic(auto, using(crate::proofs::Edited::put_lawful, matching::proofs::Rows::list_from_facts, matching::proofs::Rows::nil_lawful))]
    pub fn clear(&mut self, door: u8)
        ensures { lists self.new ≡ cleared door (lists self.old) }
    {
        let _ = self.put(door, &[]);
    }

    /// Empties the list of `door`, and takes it off every list.
    #[tactic(auto, using(crate::proofs::Whole::rows_length, crate::proofs::Edited::off_none, crate::proofs::Edited::off_more, crate::proofs::Edited::off_all))]
    pub fn withdraw(&mut self, door: u8)
        ensures { lists self.new ≡ withdrawn door (lists self.old) }
    {
        self.clear(door);
        for owner in 0..self.count {
            self.remove(owner, door);
        }
    }
}
