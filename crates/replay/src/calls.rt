//! The calls of a run, and how they are answered.
ghost use Rattle.std.specs.Prelude.{◌≡◌};
ghost use Rattle.replay.specs.State.{edited};

use faults::Fault;

/// A call on a level. A claim is shown by its number: `k` is the `k`-th claim granted in this run, counted from 1.
#[derive(PartialEq, Eq, Debug, Drop)]
pub enum Call {
    /// Claims a door.
    Claim(u8),
    /// Releases the door of the claim with this number.
    Release(u32),
    /// Strikes the door of the claim with this number.
    Strike(u32),
    /// Ends the claim on a door.
    Free(u8),
    /// Forbids two doors to each other.
    Forbid(u8, u8),
    /// Favours the second door on the list of the first.
    Favour(u8, u8),
    /// A one-way linking with these sides, into this output, with working memory of so many numbers.
    OneWay {
        /// The side of each door.
        sides: Vec<u8>,
        /// What the output holds before.
        output: Vec<u16>,
        /// How many numbers of working memory there are.
        memory: usize,
    },
    /// A linking of all doors, into this output, with working memory of so many numbers.
    Link {
        /// What the output holds before.
        output: Vec<u16>,
        /// How many numbers of working memory there are.
        memory: usize,
    },
}

/// The answer to a call.
#[derive(PartialEq, Eq, Debug, Drop)]
pub enum Answer {
    /// A claim is granted: which one it is, counted from 1.
    Claimed(u32),
    /// Any other edit is granted.
    Granted,
    /// An edit is refused.
    Refused(Fault),
    /// The claim to be shown was never granted, or was shown before: no call is made.
    NotShown,
    /// The number of proposals of a one-way linking or its refusal, and what the output holds then.
    OneWay {
        /// How many proposals were made, or the refusal.
        proposals: Result<u16, Fault>,
        /// What the output holds after.
        output: Vec<u16>,
    },
    /// Whether the doors were linked, or the refusal, and what the output holds then.
    Link {
        /// Whether the doors were linked, or the refusal.
        linked: Result<(), Fault>,
        /// What the output holds after.
        output: Vec<u16>,
    },
}

// The answer to an edit that gives back nothing.
impl From<Result<(), Fault>> for Answer {
    ghost from_gives = { λ edit answer. answer ≡ edited edit };

    fn from(edit: Result<(), Fault>) -> Answer {
        match edit {
            Ok(()) => Answer::Granted,
            Err(fault) => Answer::Refused(fault),
        }
    }
}
