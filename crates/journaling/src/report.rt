//! The summary of a run.
ghost use Rattle.std.specs.Prelude.{◌≡◌, ◌++◌, IfOk, string_bytes, OnOk};
ghost use Rattle.faults.specs.Number.{number};
ghost use Rattle.journaling.specs.Summary.{call_lines, refusal_line, refusal_lines, state_lines, summary_text};

use crate::counts::{count, count_true, last_pairs};
use crate::ledger::Ledger;
use faults::Refusal;
use replay::Answer;
use std::alloc::{AllocError, Global};

// Adds the line of a refusal that occurred.
fn add_refusal(text: &mut String, refusal: Refusal, times: usize) -> Result<(), AllocError>
    ensures { OnOk result (string_bytes text.new ≡ string_bytes text.old ++ refusal_line (number refusal) times) }
{
    if times == 0 {
        return Ok(());
    }
    writeln!(text, "refused {}: {times}", u8::from(refusal))
}

// What a summary tells: the answers of a run, and what it has done to the doors.
#[derive(Clone, Copy)]
pub(crate) struct Report<'a> {
    pub(crate) ledger: &'a Ledger,
    pub(crate) answers: &'a [Answer],
}

impl<'a> Report<'a> {
    // Adds the lines with the calls made and granted.
    fn add_calls(&self, text: &mut String) -> Result<(), AllocError>
        ensures { OnOk result (string_bytes text.new ≡ string_bytes text.old ++ call_lines self.now.answers.now) }
    {
        let made = self.answers.len() - count(self.answers, Some(Refusal::UnreadLine));
        let granted = count(self.answers, None);
        writeln!(text, "calls {made}\ngranted {granted}")
    }

    // Adds the lines of all refusals that occurred, their numbers rising.
    fn add_refusals(&self, text: &mut String) -> Result<(), AllocError>
        ensures { OnOk result (string_bytes text.new ≡ string_bytes text.old ++ refusal_lines self.now.answers.now) }
    {
        let answers = self.answers;
        for number in 1..u8::from(Refusal::UnreadLine) {
            if let Ok(refusal) = Refusal::try_from(number) {
                add_refusal(text, refusal, count(answers, Some(refusal)))?;
            }
        }
        Ok(())
    }

    // Adds the lines with unread lines, doors and pairs.
    fn add_state(&self, text: &mut String) -> Result<(), AllocError>
        ensures { OnOk result (string_bytes text.new ≡ string_bytes text.old ++ state_lines self.now.ledger.now.standing.items self.now.ledger.now.held.items self.now.answers.now) }
    {
        let unread = count(self.answers, Some(Refusal::UnreadLine));
        let stand = count_true(&self.ledger.standing);
        let hold = count_true(&self.ledger.held);
        let pairs = last_pairs(self.answers);
        writeln!(
            text,
            "unread {unread}\nstanding {stand}\nheld {hold}\npairs {pairs}"
        )
    }

    // The whole summary.
    pub(crate) fn summary(&self, heap: Global) -> Result<String, AllocError>
        ensures { IfOk result (λ s. string_bytes s ≡ summary_text self.now.ledger.now.standing.items self.now.ledger.now.held.items self.now.answers.now) }
    {
        let mut text = String::new(heap);
        self.add_calls(&mut text)?;
        self.add_refusals(&mut text)?;
        self.add_state(&mut text)?;
        Ok(text)
    }
}
