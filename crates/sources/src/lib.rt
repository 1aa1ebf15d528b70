//! Sources of preference lists, all behind the same three questions.

#![tactic(auto)]

mod baking;
mod file;
mod ground;
mod laws;
mod reach;
mod reading;
mod source;
mod tabled;

pub use baking::bake;
pub use file::FileSource;
pub use ground::GroundSource;
pub use laws::baked_lists_read_back;
pub use reach::Reach;
pub use reading::copied;
pub use source::Source;
pub use tabled::Tabled;
