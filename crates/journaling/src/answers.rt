//! Answers as lines.
ghost use Rattle.std.specs.Prelude.{Some};
ghost use Rattle.journaling.specs.Answers.{answer_text, linked_text};

use faults::Refusal;
use replay::Answer;
use std::fmt;
use text::{Linking, RefusedCall};

// The line of a one-way linking: its number of proposals, and each entry after one space.
#[derive(Clone, Copy)]
struct OneWayLine<'a> {
    proposals: u16,
    standing: &'a [bool],
    partners: &'a [u16],
}

impl<'a> fmt::Display for OneWayLine<'a> {
    ghost output = { λ line. Some (linked_text line.standing.now line.proposals line.partners.now) };

    fn fmt<W: fmt::Write>(&self, f: &mut fmt::Formatter<W>) -> fmt::Result {
        let linking = Linking {
            begun: true,
            standing: self.standing,
            partners: self.partners,
        };
        write!(f, "{} proposals:{linking}", self.proposals)
    }
}

// The line of an answer, where these doors stand.
#[derive(Clone, Copy)]
pub(crate) struct AnswerLine<'a> {
    pub(crate) standing: &'a [bool],
    pub(crate) answer: &'a Answer,
}

impl<'a> fmt::Display for AnswerLine<'a> {
    ghost output = { λ line. Some (answer_text line.standing.now line.answer.now) };

    fn fmt<W: fmt::Write>(&self, f: &mut fmt::Formatter<W>) -> fmt::Result {
        let standing = self.standing;
        match self.answer {
            Answer::Claimed(number) => write!(f, "claim {number}"),
            Answer::Granted => f.write_str("ok"),
            Answer::Refused(fault)
            | Answer::OneWay {
                proposals: Err(fault),
                ..
            }
            | Answer::Link {
                linked: Err(fault),
                ..
            } => write!(f, "{}", RefusedCall(fault.refusal)),
            Answer::NotShown => write!(f, "{}", RefusedCall(Refusal::UnreadLine)),
            Answer::OneWay {
                proposals: Ok(proposals),
                output,
            } => {
                let line = OneWayLine {
                    proposals: *proposals,
                    standing,
                    partners: output,
                };
                write!(f, "{line}")
            }
            Answer::Link {
                linked: Ok(()),
                output,
            } => {
                let linking = Linking {
                    begun: false,
                    standing,
                    partners: output,
                };
                write!(f, "{linking}")
            }
        }
    }
}
