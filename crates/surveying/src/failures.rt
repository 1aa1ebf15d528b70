//! What is said where a survey gives no lists.
ghost use Rattle.std.specs.Prelude.{◌≡◌, IfOk, Some, string_bytes};
ghost use Rattle.surveying.specs.Failures.{failure_text};
ghost use Rattle.surveying.specs.declared.failures.SurveyError.TheVariants.{NoMemory, Refused};

use faults::Fault;
use std::alloc::{AllocError, AllocFailed, Global};
use std::fmt;

/// Why a survey's text gives no lists.
#[derive(Clone, Copy, Debug)]
pub enum SurveyError {
    /// the line of this number, counted from 1, is malformed
    Malformed(usize),
    /// the records cannot be ranked
    Refused(Fault),
    /// no memory for the records
    NoMemory,
}

impl From<Fault> for SurveyError {
    ghost from_gives = { λ f e. e ≡ Refused f };

    fn from(fault: Fault) -> SurveyError {
        SurveyError::Refused(fault)
    }
}

impl<T: Drop> From<AllocFailed<T>> for SurveyError {
    ghost from_gives = { λ _ e. e ≡ NoMemory };

    fn from(_error: AllocFailed<T>) -> SurveyError {
        SurveyError::NoMemory
    }
}

impl fmt::Display for SurveyError {
    ghost output = { λ error. Some (failure_text error) };

    fn fmt<W: fmt::Write>(&self, f: &mut fmt::Formatter<W>) -> fmt::Result {
        match self {
            SurveyError::Malformed(number) => write!(f, "malformed line {number}"),
            SurveyError::Refused(fault) => write!(f, "{fault}"),
            SurveyError::NoMemory => f.write_str("no memory"),
        }
    }
}

// stays: `thiserror` would promise neither the text nor what `?` makes of a fault
impl std::error::Error for SurveyError {}

/// The line that says why a survey gives no lists.
// stays: a public function that promised this text before its `Display` stood
pub fn failure_line(heap: Global, error: SurveyError) -> Result<String, AllocError>
    ensures { IfOk result (λ line. string_bytes line ≡ failure_text error) }
{
    format!(in heap; "{error}")
}
