//! What holds its lists in a table is a source.
ghost use Rattle.std.specs.Prelude.{◌≡◌};
ghost use Rattle.lists.specs.Tables.{lists as rows};
ghost use Rattle.lists.specs.declared.table.ListTable.{ListTable};

use crate::source::Source;
use lists::ListTable;

/// A value with the lists of a table.
pub trait Tabled {
    ghost held: { Self → ListTable };

    /// The table.
    fn table(&self) -> &ListTable
        ensures { result.now ≡ held self.now };
}

impl<T: Tabled> Source for T {
    ghost lists = { λ s. rows (T.Tabled.held s) };

    ghost sound = { λ s. (T.Tabled.held s).sound };

    fn count(&self) -> u8 {
        self.table().count()
    }

    fn length(&self, door: u8) -> u8 {
        self.table().length(door)
    }

    fn place(&self, door: u8, other: u8) -> Option<u8> {
        self.table().place(door, other)
    }
}

impl Tabled for ListTable {
    ghost held = { λ t. t };

    fn table(&self) -> &ListTable {
        self
    }
}
