//! Claims that are spent at once: what a designer does who has decided already.
ghost use Rattle.level.specs.Checks.{claim_fault};
ghost use Rattle.level.specs.Edits.{Answers, claimed, released, struck_out};
ghost use Rattle.level.specs.View.{view};

use crate::Level;
use faults::Fault;

/// Claims a door and strikes it. Refused where the claim is.
// stays: two functions of two lines: one for both, with a closure for the last call, would be longer, and its contract would speak of what the closure answers
pub fn strike_once(level: &mut Level, door: u8) -> Result<(), Fault>
    ensures { Answers (claim_fault (view level.old) door) (view level.old) (struck_out (claimed (view level.old) door) door) result (view level.new) }
{
    let claim = level.claim(door)?;
    level.strike(claim)
}

/// Claims a door and releases it: says whether a claim is granted, which then counts as granted. Refused where the claim is.
pub fn claim_once(level: &mut Level, door: u8) -> Result<(), Fault>
    ensures { Answers (claim_fault (view level.old) door) (view level.old) (released (claimed (view level.old) door) door) result (view level.new) }
{
    let claim = level.claim(door)?;
    level.release(claim)
}
