//! Claims: granted on a door, and spent by release or strike alone.
ghost use Rattle.std.specs.Prelude.{◌≡◌, IfOk};
ghost use Rattle.std.specs.Result.{result_err};
ghost use Rattle.level.specs.Edits.{ClaimAnswers, ReleaseAnswers, StrikeAnswers};
ghost use Rattle.level.specs.Checks.{show_fault};
ghost use Rattle.level.specs.View.{view, claim_door, claim_serial};

use crate::Level;
use crate::checks::refuse_if;
use crate::doors::DoorState;
use crate::records::About;
use faults::{Fault, Refusal};

/// A claim on a door. It cannot be copied or dropped: release or strike takes it back.
pub struct Claim {
    door: u8,
    // its place among the granted claims of its level, from 1
    serial: u32,
}

impl Level {
    /// Takes a claim on a door, which is held from then on. Refused where the number is no door (1), the door was struck (3) or is held (4),
    /// or where no more claims can be granted (17).
    pub fn claim(&mut self, door: u8) -> Result<Claim, Fault>
        ensures { ClaimAnswers (view self.old) door result (view self.new) }
    {
        self.check_claim(door)?;
        let serial = self.granted + 1;
        self.granted = serial;
        self.doors.put(door, DoorState::Held(serial));
        Ok(Claim { door, serial })
    }

    // The door of a claim that is shown, where the claim holds it. The claim is spent either way.
    fn shown(&self, claim: Claim) -> Result<u8, Fault>
        ensures refused { result_err result ≡ show_fault (view self.now) (claim_door claim) (claim_serial claim) }
        ensures door { IfOk result (λ d. d ≡ claim_door claim) }
    {
        let Claim { door, serial } = claim;
        let holds = self.doors.state(door) == DoorState::Held(serial);
        refuse_if(!holds, Refusal::NotHolder, door)?;
        Ok(door)
    }

    /// Gives a claim back: its door is no longer held. Refused where the claim does not hold its door (16). The claim is spent either way.
    pub fn release(&mut self, claim: Claim) -> Result<(), Fault>
        ensures { ReleaseAnswers (view self.old) claim result (view self.new) }
    {
        let held = self.shown(claim)?;
        self.doors.put(held, DoorState::Open);
        Ok(())
    }

    /// Strikes the door of a claim: its list is emptied, it is taken off every list, and its favours and forbidden pairs are dropped.
    /// Refused where the claim does not hold its door (16). The claim is spent either way.
    pub fn strike(&mut self, claim: Claim) -> Result<(), Fault>
        ensures { StrikeAnswers (view self.old) claim result (view self.new) }
    {
        let door = self.shown(claim)?;
        self.lists.withdraw(door);
        self.doors.put(door, DoorState::Struck);
        self.favours.end(About::Door(door));
        self.pairs.end(About::Door(door));
        Ok(())
    }
}
