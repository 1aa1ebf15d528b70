//! Lawful preference lists of up to 96 doors, in memory: a row for each door, with the places looked up in one step.

#![tactic(auto)]

mod row;
mod table;

pub use table::ListTable;

/// The most doors that a level has.
pub const MOST_DOORS: u8 = 96;
/// The most doors as the size of an array: a place for each of them.
pub const ROOM: usize = MOST_DOORS as usize;
