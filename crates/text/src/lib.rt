//! Numbers and lines, read from bytes and written to text.

#![tactic(auto)]

mod linking;
mod numbers;
mod parts;
mod refusals;

pub use linking::{Linking, linking_line, partner};
pub use numbers::{byte, digits, integer, number, pair};
pub use parts::{first_line, split_once};
pub use refusals::{RefusedCall, RefusedFile, refused_file_line, refused_line};

#[cfg(test)]
mod tests;
