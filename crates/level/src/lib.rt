//! The level: doors that are claimed, struck, forbidden to each other and favoured, over the lists of any source.

#![tactic(auto)]

mod briefly;
mod checks;
mod claims;
mod doors;
mod edits;
mod live;
mod making;
mod queries;
mod records;

use crate::doors::Doors;
use crate::live::Live;
pub use briefly::{claim_once, strike_once};
pub use claims::Claim;
use lists::ListTable;
pub use records::{Favour, Pair};

/// A level under edit. Its lists are those of the moment: a source's lists, changed by the granted edits.
// stays: no Model, which was tried: a level is a source, whose law `sound` says that its lists are lawful; with a Model it would have to hold of
// every view, also of one whose lists are not lawful. And callers of `claim` need that there are 96 states, which the view does not say.
#[derive(Drop)]
pub struct Level {
    // the lists of the moment
    lists: ListTable,
    doors: Doors,
    // how many claims were granted
    granted: u32,
    favours: Live<Favour>,
    pairs: Live<Pair>,
    // the turn of the last granted favour
    turn: u64,
}
