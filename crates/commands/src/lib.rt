//! The console's commands: the lines that say them, and what each is answered with.

#![tactic(auto)]

mod answering;
mod buffer;
mod reading;
mod replies;

pub use answering::{answer, reply};
pub use buffer::LineBuffer;
pub use reading::{Command, read_command};
pub use replies::Reply;

#[cfg(test)]
mod tests;
