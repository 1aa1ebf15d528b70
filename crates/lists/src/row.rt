//! One door's list, beside the place of each door on it.
ghost use Rattle.std.specs.Prelude.{◌≡◌, ℕ, ◌<◌, ◌≤◌, ◌↔◌, [], length, slice_index_or, None, IsTrue, IsSome, IfSome};
ghost use Rattle.matching.specs.Lists.{place, lawful_list, without};

use crate::ROOM;
use arrayvec::ArrayVec;

/// A list of doors below 96, the most wanted first, and each door's place on it.
#[derive(Drop)]
pub(crate) struct Row {
    items: ArrayVec<u8, ROOM>,
    places: [Option<u8>; ROOM],
    ghost all: { length places ≡ 96 },
    ghost right: { (y : ℕ) → y < 96 → slice_index_or places y None ≡ place items.items y },
}

impl Row {
    ghost use Rattle.lists.specs.Rows.{row_list};

    /// The empty list.
    pub(crate) fn empty() -> Row
        ensures { row_list result ≡ [] }
    {
        Row {
            items: ArrayVec::new(),
            places: [None; ROOM],
        }
    }

    /// The row of a list of the door `own` among `count` doors, or nothing where that list is not lawful.
    #[tactic(auto, using(crate::proofs::Filling::too_long, crate::proofs::Filling::repeated, crate::proofs::Filling::unknown, crate::proofs::Filling::owner))]
    pub(crate) fn of(list: &[u8], count: u8, own: u8) -> Option<Row>
        requires { count ≤ 96 }
        ensures lawful { IsSome result ↔ IsTrue (lawful_list count own list.now) }
        ensures same { IfSome result (λ w. row_list w ≡ list.now) }
    {
        let Ok(items) = ArrayVec::try_from(list) else {
            return None;
        };
        let mut places = [None; ROOM];
        for (i, &door) in list.iter().enumerate() {
            if door >= count || door == own {
                return None;
            }
            if places[usize::from(door)].is_some() {
                return None;
            }
            places[usize::from(door)] = Some(i as u8);
        }
        Some(Row { items, places })
    }

    /// The number of doors on the list.
    pub(crate) fn length(&self) -> u8
        ensures { result ≡ length (row_list self.now) }
    {
        self.items.len() as u8
    }

    /// The place of `other` on the list, if it is listed.
    pub(crate) fn place(&self, other: u8) -> Option<u8>
        requires { other < 96 }
        ensures { result ≡ place (row_list self.now) other }
    {
        self.places[usize::from(other)]
    }

    /// The list without `other`.
    // stays: a loop over the list, for `collect` into an ArrayVec answers a Result, and 96 doors always fit
    pub(crate) fn without(&self, other: u8) -> ArrayVec<u8, ROOM>
        ensures { result.items ≡ without other (row_list self.now) }
    {
        let mut rest = ArrayVec::new();
        for &door in self.items.iter() {
            if door != other {
                rest.push(door);
            }
        }
        rest
    }
}
