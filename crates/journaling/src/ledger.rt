//! What a run has done to the doors, kept from its calls and answers.
ghost use Rattle.std.specs.Prelude.{◌≡◌, [], ◌++◌, IfOk, OnOk, slice_set};
ghost use Rattle.journaling.specs.Doors.{Follows, Kept, claimed_door};
ghost use Rattle.replay.specs.History.{deeds, granting};

use replay::{Answer, Call};
use std::alloc::{AllocError, Global};

// What a run has done to the doors so far.
// stays: no plainer: a linking's line takes the doors that stand as a slice of bool, which a vector of states would have to copy
#[derive(Drop)]
pub(crate) struct Ledger {
    // the door of each claim granted, the first first
    pub(crate) claimed: Vec<u8>,
    // which doors stand
    pub(crate) standing: Vec<bool>,
    // which doors are held
    pub(crate) held: Vec<bool>,
}

// Writes a flag; nothing changes where there is none at the place.
fn put(flags: &mut Vec<bool>, place: usize, value: bool)
    ensures { flags.new.items ≡ slice_set flags.old.items place value }
{
    if let Some(flag) = flags.get_mut(place) {
        *flag = value;
    }
}

impl Ledger {
    // The ledger of a new level.
    pub(crate) fn new(heap: Global, doors: u8) -> Result<Ledger, AllocError>
        ensures { IfOk result (λ l. Kept doors [] l) }
    {
        let n = usize::from(doors);
        Ok(Ledger {
            claimed: Vec::new(heap),
            standing: vec![in heap; true; n]?,
            held: vec![in heap; false; n]?,
        })
    }

    // The door of the claim of this number.
    fn door(&self, number: u32) -> Option<u8>
        ensures { result ≡ claimed_door self.now.claimed.items number }
    {
        let place = number.checked_sub(1)?;
        self.claimed.get(place as usize).copied()
    }

    // A claim on a door was granted: the door is held.
    #[tactic(auto, using(crate::proofs::Ledgers::follows_claimed))]
    fn claim(&mut self, door: u8) -> Result<(), AllocError>
        ensures { OnOk result (Follows (granting (Call.Claim door)) self.old self.new) }
    {
        self.claimed.push(door)?;
        put(&mut self.held, usize::from(door), true);
        Ok(())
    }

    // The door of a claim was released: it is open.
    // stays: no plainer by `free`: its contract says which deed is taken up, and a release is another one
    #[tactic(auto, using(crate::proofs::Ledgers::follows_released, crate::proofs::Ledgers::follows_unreleased, crate::proofs::Ledgers::door_at))]
    fn release(&mut self, number: u32)
        ensures { Follows (granting (Call.Release number)) self.old self.new }
    {
        if let Some(door) = self.door(number) {
            put(&mut self.held, usize::from(door), false);
        }
    }

    // The door of a claim was struck: it is open, and stands no longer.
    #[tactic(auto, using(crate::proofs::Ledgers::follows_struck, crate::proofs::Ledgers::follows_unstruck, crate::proofs::Ledgers::door_at))]
    fn strike(&mut self, number: u32)
        ensures { Follows (granting (Call.Strike number)) self.old self.new }
    {
        if let Some(door) = self.door(number) {
            put(&mut self.held, usize::from(door), false);
            put(&mut self.standing, usize::from(door), false);
        }
    }

    // A door was freed: it is open.
    #[tactic(auto, using(crate::proofs::Ledgers::follows_freed))]
    fn free(&mut self, door: u8)
        ensures { Follows (granting (Call.Free door)) self.old self.new }
    {
        put(&mut self.held, usize::from(door), false);
    }

    // Takes up a granted call.
    #[tactic(auto, using(crate::proofs::Ledgers::follows_none, crate::proofs::Ledgers::follows_forbade, crate::proofs::Ledgers::follows_favoured))]
    fn grant(&mut self, call: &Call) -> Result<(), AllocError>
        ensures { OnOk result (Follows (granting call.now) self.old self.new) }
    {
        match call {
            Call::Claim(door) => self.claim(*door)?,
            Call::Release(number) => self.release(*number),
            Call::Strike(number) => self.strike(*number),
            Call::Free(door) => self.free(*door),
            Call::Forbid(_, _) | Call::Favour(_, _) | Call::OneWay { .. } | Call::Link { .. } => {}
        }
        Ok(())
    }

    // Takes up a call and its answer.
    #[tactic(auto, using(crate::proofs::Ledgers::follows_none, crate::proofs::Ledgers::follows_refusing))]
    pub(crate) fn note(&mut self, call: &Call, answer: &Answer) -> Result<(), AllocError>
        ensures { OnOk result (Follows (deeds call.now answer.now) self.old self.new) }
    {
        match answer {
            Answer::Claimed(_) | Answer::Granted => self.grant(call),
            Answer::Refused(_) | Answer::NotShown | Answer::OneWay { .. } | Answer::Link { .. } =>
                Ok(()),
        }
    }
}
