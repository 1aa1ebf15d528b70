//! What a line is answered with.
ghost use Rattle.std.specs.Prelude.{◌≡◌, Some};
ghost use Rattle.commands.specs.Replies.{edit_line, reply_text};

use faults::{Fault, Refusal};
use std::fmt;
use text::{Linking, RefusedCall};

/// What a line is answered with, to be printed as a line.
#[derive(Drop)]
pub enum Reply {
    /// the edit was made
    Done,
    /// the call was refused, or the line is no command
    Refused(Refusal),
    /// the linking of the doors that stand
    Linked {
        /// for each door whether it stands
        standing: Vec<bool>,
        /// for each door its partner, or 65535
        partners: Vec<u16>,
    },
}

// What an edit of the level came to.
impl From<Result<(), Fault>> for Reply {
    ghost from_gives = { λ outcome reply. reply_text reply ≡ edit_line outcome };

    fn from(outcome: Result<(), Fault>) -> Reply {
        match outcome {
            Ok(()) => Reply::Done,
            Err(fault) => Reply::Refused(fault.refusal),
        }
    }
}

impl fmt::Display for Reply {
    ghost output = { λ reply. Some (reply_text reply) };

    fn fmt<W: fmt::Write>(&self, f: &mut fmt::Formatter<W>) -> fmt::Result {
        match self {
            Reply::Done => f.write_str("ok"),
            Reply::Refused(refusal) => write!(f, "{}", RefusedCall(*refusal)),
            Reply::Linked { standing, partners } => write!(
                f,
                "{}",
                Linking {
                    begun: false,
                    standing,
                    partners
                }
            ),
        }
    }
}
