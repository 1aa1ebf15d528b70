//! The state of each door.
ghost use Rattle.std.specs.Prelude.{◌≡◌, length, replicate, slice_index_or, slice_set};

use lists::{MOST_DOORS, ROOM};

#[derive(Clone, Copy, PartialEq)]
pub(crate) enum DoorState {
    // it stands, and nobody holds it
    Open,
    // it stands, and the claim with this serial holds it
    Held(u32),
    // it was struck
    Struck,
}

// The states of the numbers 0 to 95; those past the last door are open.
#[derive(Drop)]
pub(crate) struct Doors {
    states: [DoorState; ROOM],
    ghost whole: { length states ≡ 96 },
}

impl Doors {
    // Every door is open.
    pub(crate) fn open() -> Doors
        ensures { result.states ≡ replicate 96 DoorState.Open }
    {
        Doors {
            states: [DoorState::Open; ROOM],
        }
    }

    // The state of a door. A number past the last door is open.
    pub(crate) fn state(&self, door: u8) -> DoorState
        ensures { result ≡ slice_index_or self.now.states door DoorState.Open }
    {
        self.states
            .get(usize::from(door))
            .copied()
            .unwrap_or(DoorState::Open)
    }

    // Gives a door a new state. Past the last door nothing changes.
    pub(crate) fn put(&mut self, door: u8, state: DoorState)
        ensures { self.new.states ≡ slice_set self.old.states door state }
    {
        // stays: written by index, for with `get_mut` the check finds neither what the array has after the write nor that it keeps its length
        if door < MOST_DOORS {
            self.states[usize::from(door)] = state;
        }
    }
}
