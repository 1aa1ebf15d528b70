//! From the text of a survey to a level file, and what is said of it.

#![tactic(auto)]

mod comparing;
mod failures;
mod reading;
mod report;
mod writing;

pub use failures::{SurveyError, failure_line};
pub use reading::rank_survey;
pub use report::summary;
pub use writing::level_file;
