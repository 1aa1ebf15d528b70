//! What an editor's panel asks.
ghost use Rattle.std.specs.Prelude.{◌≡◌};
ghost use Rattle.level.specs.View.{view, state, is_struck, is_held};

use crate::doors::DoorState;
use crate::{Favour, Level, Pair};

impl Level {
    /// Was this door struck? Past the last door: no.
    pub fn is_struck(&self, door: u8) -> bool
        ensures { result ≡ is_struck (state (view self.now) door) }
    {
        self.doors.state(door) == DoorState::Struck
    }

    /// Does a claim hold this door? Past the last door: no.
    pub fn is_held(&self, door: u8) -> bool
        ensures { result ≡ is_held (state (view self.now) door) }
    {
        matches!(self.doors.state(door), DoorState::Held(_))
    }

    /// The live favours.
    pub fn favours(&self) -> &[Favour]
        ensures { result.now ≡ (view self.now).favours }
    {
        self.favours.all()
    }

    /// The live forbidden pairs.
    pub fn forbidden(&self) -> &[Pair]
        ensures { result.now ≡ (view self.now).pairs }
    {
        self.pairs.all()
    }

    /// How many claims were granted.
    pub fn granted(&self) -> u32
        ensures { result ≡ (view self.now).granted }
    {
        self.granted
    }
}
