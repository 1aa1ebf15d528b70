//! The whole text of a journal.
ghost use Rattle.std.specs.Prelude.{◌≡◌, ◌++◌, IfOk, string_bytes, codes, OnOk};
ghost use Rattle.journaling.specs.Answers.{answer_text};
ghost use Rattle.journaling.specs.Doors.{Kept};
ghost use Rattle.journaling.specs.Journal.{FileJournal, Journal, Ran, answer_lines, ending, journal_text};

use crate::answers::AnswerLine;
use crate::ledger::Ledger;
use crate::lines::read_calls;
use crate::report::Report;
use replay::{Answer, Call};
use sources::Source;
use std::alloc::{AllocError, Global};
use text::RefusedFile;

// Adds the line of an answer, where these doors stand.
fn add_line(text: &mut String, standing: &[bool], answer: &Answer) -> Result<(), AllocError>
    ensures { OnOk result (string_bytes text.new ≡ string_bytes text.old ++ (answer_text standing.now answer.now ++ codes "\n")) }
{
    writeln!(text, "{}", AnswerLine { standing, answer })
}

// The lines of all answers, and the ledger at the end.
fn answer_lines(
    heap: Global,
    doors: u8,
    calls: &[Call],
    answers: &[Answer],
) -> Result<(String, Ledger), AllocError>
    requires { Ran calls.now answers.now }
    ensures { IfOk result (λ p. (string_bytes p.0 ≡ answer_lines doors calls.now answers.now) × Kept doors (ending calls.now answers.now) p.1) }
{
    let mut text = String::new(heap);
    let mut ledger = Ledger::new(heap, doors)?;
    for (call, answer) in calls.iter().zip(answers) {
        add_line(&mut text, &ledger.standing, answer)?;
        ledger.note(call, answer)?;
    }
    Ok((text, ledger))
}

// The answers of a run, an empty line and the summary.
fn run_text(
    heap: Global,
    doors: u8,
    calls: &[Call],
    answers: &[Answer],
) -> Result<String, AllocError>
    requires { Ran calls.now answers.now }
    ensures { IfOk result (λ s. string_bytes s ≡ journal_text doors calls.now answers.now) }
{
    let (mut text, ledger) = answer_lines(heap, doors, calls, answers)?;
    let report = Report {
        ledger: &ledger,
        answers,
    };
    let summary = report.summary(heap)?;
    text.push('\n')?;
    text.push_str(&summary)?;
    Ok(text)
}

/// What a journal over a source prints: the answer to each line, an empty line and the summary.
pub fn journal_text<S: Source>(heap: Global, source: &S, input: &[u8]) -> Result<String, AllocError>
    ensures { IfOk result (λ s. Journal (S.Source.lists source.now) input.now (string_bytes s)) }
{
    let doors = source.count();
    let calls = read_calls(heap, doors, input)?;
    let answers = replay::replay(heap, source, calls.as_slice())?;
    run_text(heap, doors, calls.as_slice(), answers.as_slice())
}

/// What a journal over a level file prints. A refused file gives one line with its fault.
pub fn file_journal(heap: Global, file: &[u8], input: &[u8]) -> Result<String, AllocError>
    ensures { IfOk result (λ s. FileJournal file.now input.now (string_bytes s)) }
{
    match codec::read(file) {
        Ok(table) => journal_text(heap, &table, input),
        Err(fault) => format!(in heap; "{}\n", RefusedFile(fault)),
    }
}
