//! The calls that show no claim.
ghost use Rattle.level.specs.Edits.{FreeAnswers, ForbidAnswers, FavourAnswers};
ghost use Rattle.level.specs.View.{view};

use crate::doors::DoorState;
use crate::records::About;
use crate::{Favour, Level, Pair};
use faults::Fault;

impl Level {
    /// Ends the hold of a door without its claim. Refused where the number is no door (1), the door was struck (3), or no claim holds it (16).
    pub fn free(&mut self, door: u8) -> Result<(), Fault>
        ensures { FreeAnswers (view self.old) door result (view self.new) }
    {
        self.check_free(door)?;
        self.doors.put(door, DoorState::Open);
        Ok(())
    }

    /// Takes two doors off each other's lists: they are a live pair from then on, and what was favoured between them is dropped. Refused
    /// where a number is no door (1), both are one (2), a door was struck (3) or is held (4), or 64 other pairs are live (6).
    pub fn forbid(&mut self, a: u8, b: u8) -> Result<(), Fault>
        ensures { ForbidAnswers (view self.old) a b result (view self.new) }
    {
        self.check_forbid(a, b)?;
        self.lists.remove(a, b);
        self.lists.remove(b, a);
        self.pairs.add(
            About::Either(a, b),
            Pair {
                first: a,
                second: b,
            },
        );
        self.favours.end(About::Either(a, b));
        Ok(())
    }

    /// Moves the second door to the head of the first one's list: a live favour from then on, with a new turn. Refused where a number is
    /// no door (1), both are one (2), a door was struck (3) or is held (4), the second is not on that list (5), or 64 other favours are live (6).
    pub fn favour(&mut self, a: u8, b: u8) -> Result<(), Fault>
        ensures { FavourAnswers (view self.old) a b result (view self.new) }
    {
        self.check_favour(a, b)?;
        self.lists.promote(a, b);
        // after 2^64 - 1 favours the turn stays at its last number
        self.turn = self.turn.saturating_add(1);
        self.favours.note(
            About::Order(a, b),
            Favour {
                first: a,
                second: b,
                turn: self.turn,
            },
        );
        Ok(())
    }
}
