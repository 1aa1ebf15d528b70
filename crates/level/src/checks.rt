//! The checks of each call, in order: a call is refused with the first fault that they find.
ghost use Rattle.std.specs.Prelude.{◌≡◌};
ghost use Rattle.std.specs.Result.{result_err};
ghost use Rattle.level.specs.Checks.{refuses, unknown, gone, held, link_fault, claim_fault, free_fault, forbid_fault, favour_fault};
ghost use Rattle.level.specs.View.{view};

use crate::Level;
use crate::records::About;
use faults::{Fault, Layer, Place, Refusal};

// Refuses at a door where the test holds.
pub(crate) fn refuse_if(refused: bool, refusal: Refusal, door: u8) -> Result<(), Fault>
    ensures { result_err result ≡ refuses refused refusal door }
{
    if refused {
        return Err(Layer::Level.refuses(refusal, Place::At(u32::from(door))));
    }
    Ok(())
}

impl Level {
    // The number must be one of the level's doors.
    fn check_number(&self, door: u8) -> Result<(), Fault>
        ensures { result_err result ≡ unknown (view self.now) door }
    {
        refuse_if(door >= self.lists.count(), Refusal::NoSuchDoor, door)
    }

    // The door must stand.
    fn check_standing(&self, door: u8) -> Result<(), Fault>
        ensures { result_err result ≡ gone (view self.now) door }
    {
        refuse_if(self.is_struck(door), Refusal::DoorGone, door)
    }

    // No claim may hold the door.
    fn check_open(&self, door: u8) -> Result<(), Fault>
        ensures { result_err result ≡ held (view self.now) door }
    {
        refuse_if(self.is_held(door), Refusal::DoorHeld, door)
    }

    // What forbid and favour check first: the first door before the second.
    fn check_link(&self, a: u8, b: u8) -> Result<(), Fault>
        ensures { result_err result ≡ link_fault (view self.now) a b }
    {
        self.check_number(a)?;
        self.check_number(b)?;
        refuse_if(a == b, Refusal::SameDoor, b)?;
        self.check_standing(a)?;
        self.check_standing(b)?;
        self.check_open(a)?;
        self.check_open(b)
    }

    // One more claim must have a serial.
    pub(crate) fn check_claim(&self, door: u8) -> Result<(), Fault>
        ensures { result_err result ≡ claim_fault (view self.now) door }
    {
        self.check_number(door)?;
        self.check_standing(door)?;
        self.check_open(door)?;
        refuse_if(self.granted == u32::MAX, Refusal::ClaimsSpent, door)
    }

    // Some claim must hold the door.
    pub(crate) fn check_free(&self, door: u8) -> Result<(), Fault>
        ensures { result_err result ≡ free_fault (view self.now) door }
    {
        self.check_number(door)?;
        self.check_standing(door)?;
        refuse_if(!self.is_held(door), Refusal::NotHolder, door)
    }

    // The pair must be live, or have a place in the table.
    pub(crate) fn check_forbid(&self, a: u8, b: u8) -> Result<(), Fault>
        ensures { result_err result ≡ forbid_fault (view self.now) a b }
    {
        self.check_link(a, b)?;
        let full = self.pairs.is_full(About::Either(a, b));
        refuse_if(full, Refusal::TableFull, a)
    }

    // The second door must be on the first one's list, and the favour must be live, or have a place in the table.
    pub(crate) fn check_favour(&self, a: u8, b: u8) -> Result<(), Fault>
        ensures { result_err result ≡ favour_fault (view self.now) a b }
    {
        self.check_link(a, b)?;
        refuse_if(self.lists.place(a, b).is_none(), Refusal::NotListed, b)?;
        let full = self.favours.is_full(About::Order(a, b));
        refuse_if(full, Refusal::TableFull, a)
    }
}
