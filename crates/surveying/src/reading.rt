//! The records of a survey's text.
ghost use Rattle.std.specs.Prelude.{◌≡◌};
ghost use Rattle.surveying.specs.Errors.{RankedSurvey, Surveyed};
ghost use Rattle.surveying.specs.Survey.{ReadsRecord, passed};

use crate::failures::SurveyError;
use lists::ListTable;
use std::alloc::Global;
use survey::Record;
use text::{byte, first_line, integer, split_once};

// Whether a line is passed over.
fn passed_over(line: &[u8]) -> bool
    ensures { result ≡ passed line.now }
{
    matches!(line, [] | [b'#', ..])
}

// The record that a line says.
fn read_record(line: &[u8]) -> Option<Record>
    ensures { ReadsRecord line.now result }
{
    let (east, rest) = split_once(line, b' ')?;
    let (north, kind) = split_once(rest, b' ')?;
    Some(Record {
        east: integer(east)?,
        north: integer(north)?,
        kind: byte(kind)?,
    })
}

// The records that a text says, a line each; lines that are empty or begin with `#` are passed over. Otherwise the first malformed
// line.
fn read_survey(heap: Global, text: &[u8]) -> Result<Vec<Record>, SurveyError>
    ensures { Surveyed text.now result }
{
    let mut records = Vec::new(heap);
    let mut rest = text;
    let mut number = 0;
    // stays: an iterator over lines is no plainer: its ghost members would say again what `first_line` says in one clause, and the library
    // has none that says which lines a text has; `number` goes on with the lines
    while let Some((line, after)) = first_line(rest) {
        rest = after;
        number += 1;
        if passed_over(line) {
            continue;
        }
        let Some(record) = read_record(line) else {
            return Err(SurveyError::Malformed(number));
        };
        records.push(record)?;
    }
    Ok(records)
}

/// The lists of the doors of a survey, each as the rule of the ground gives it. Otherwise the first malformed line, or why the
/// records cannot be ranked.
pub fn rank_survey(heap: Global, text: &[u8]) -> Result<ListTable, SurveyError>
    ensures { RankedSurvey text.now result }
{
    let records = read_survey(heap, text)?;
    Ok(survey::rank(&records)?)
}
