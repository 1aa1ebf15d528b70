//! A journal: calls on a level, one a line, and what is answered to them.

#![tactic(auto)]

mod answers;
mod counts;
mod journal;
mod ledger;
mod lines;
mod reading;
mod report;

pub use journal::{file_journal, journal_text};
