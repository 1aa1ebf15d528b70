//! The level file: its check, reading it, and writing its blocks.

#![tactic(auto)]

mod block;
mod laws;
mod table;
mod verdict;
mod write;

pub use block::{BLOCK, block_check};
pub use laws::{baking_is_injective, faultless_are_files, one_first_fault};
pub use table::read;
pub use verdict::check;
pub use write::{write_header, write_row};
