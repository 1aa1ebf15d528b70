//! A new level, and a level as a source.
ghost use Rattle.std.specs.Prelude.{◌≡◌};
ghost use Rattle.level.specs.View.{view, fresh};

use crate::doors::Doors;
use crate::live::Live;
use crate::{Favour, Level, Pair};
use lists::ListTable;
use sources::{Source, Tabled, copied};

impl Level {
    /// A level that starts with the lists of a source, every door open.
    pub fn new<S: Source>(source: &S) -> Level
        ensures { view result ≡ fresh (S.Source.lists source.now) }
    {
        Level {
            lists: copied(source),
            doors: Doors::open(),
            granted: 0,
            favours: Live::empty(Favour {
                first: 0,
                second: 0,
                turn: 0,
            }),
            pairs: Live::empty(Pair {
                first: 0,
                second: 0,
            }),
            turn: 0,
        }
    }
}

// As a source a level has the lists of the moment.
impl Tabled for Level {
    ghost held = { λ level. level.lists };

    fn table(&self) -> &ListTable {
        &self.lists
    }
}
