//! Whole runs of a level: any list of calls made on a new level over any source, and the law that their answers keep.

#![tactic(auto)]

mod calls;
mod running;

pub use calls::{Answer, Call};
pub use running::replay;
