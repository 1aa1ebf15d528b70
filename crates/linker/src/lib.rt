//! Linking the doors of a level over any source of preference lists, in lent memory.

#![tactic(auto)]

// stays: `usize::from` was tried in place of `as`, and the proofs of a dozen functions whose indices it gives did not close
mod cells;
mod exits;
mod marks;
mod oneway;
mod reading;
mod sizes;
mod tables;
mod twoway;
mod walk;
mod work;

pub use oneway::one_way_link;
pub use sizes::memory_for;
pub use twoway::link;
