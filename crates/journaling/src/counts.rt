//! Answers counted.
ghost use Rattle.std.specs.Prelude.{◌≡◌, count_by, nat_eq};
ghost use Rattle.journaling.specs.Answers.{counted, last_pairs, lower, pairs, pairs_after, refusal, tally, verdict};

use faults::Refusal;
use replay::Answer;

// The refusal that an answer gives, if it gives one. A claim that cannot be shown is answered like a line that is not read.
fn refusal(answer: &Answer) -> Option<Refusal>
    ensures { result ≡ refusal answer.now }
{
    match answer {
        Answer::Refused(fault)
        | Answer::OneWay {
            proposals: Err(fault),
            ..
        }
        | Answer::Link {
            linked: Err(fault),
            ..
        } => Some(fault.refusal),
        Answer::NotShown => Some(Refusal::UnreadLine),
        Answer::Claimed(_)
        | Answer::Granted
        | Answer::OneWay {
            proposals: Ok(_),
            ..
        }
        | Answer::Link { linked: Ok(()), .. } => None,
    }
}

// How many answers give this refusal, or how many give none.
pub(crate) fn count(answers: &[Answer], wanted: Option<Refusal>) -> usize
    ensures { result ≡ tally answers.now (counted wanted) }
{
    answers
        .iter()
        .filter(
            |answer|
                ensures { result ≡ nat_eq (verdict answer.now.now) (counted wanted) }
            { refusal(answer) == wanted },
        )
        .count()
}

// How many of these are so.
pub(crate) fn count_true(flags: &[bool]) -> usize
    ensures { result ≡ count_by (λ b. b) flags.now }
{
    flags.iter().filter(|flag| **flag).count()
}

// Whether a door is the lower door of a pair, where a linking holds this for it.
fn is_lower(door: usize, held: u16) -> bool
    ensures { result ≡ lower door held }
{
    text::partner(held).is_some_and(|partner| door < usize::from(partner))
}

// The pairs of a linking.
fn pairs(partners: &[u16]) -> usize
    ensures { result ≡ pairs partners.now }
{
    partners
        .iter()
        .enumerate()
        .filter(|(door, held)| is_lower(*door, **held))
        .count()
}

// The pairs of the last linking, after one more answer.
fn pairs_after(before: usize, answer: &Answer) -> usize
    ensures { result ≡ pairs_after before answer.now }
{
    match answer {
        Answer::OneWay {
            proposals: Ok(_),
            output,
        }
        | Answer::Link {
            linked: Ok(()),
            output,
        } => pairs(output),
        _ => before,
    }
}

// The pairs of the last linking answered.
pub(crate) fn last_pairs(answers: &[Answer]) -> usize
    ensures { result ≡ last_pairs answers.now }
{
    answers
        .iter()
        .fold(0, |last, answer| pairs_after(last, answer))
}
