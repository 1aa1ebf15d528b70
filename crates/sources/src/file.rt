//! Lists of a level file.
ghost use Rattle.lists.specs.Tables.{lists as rows};
ghost use Rattle.sources.specs.Files.{FileMeans};

use crate::tabled::Tabled;
use lists::ListTable;

/// The lists of an accepted level file.
// stays: a twin of the ground's source: each has a name and a constructor of its own, and one type over a marker would add two empty types
#[derive(Drop)]
pub struct FileSource {
    table: ListTable,
}

impl FileSource {
    /// The source of a file: its lists are those that the file is the baking of. Where the file check refuses the bytes it has no doors.
    pub fn new(bytes: &[u8]) -> FileSource
        ensures { FileMeans bytes.now (rows result.table) }
    {
        let table = codec::read(bytes).unwrap_or_else(|_| ListTable::empty(0));
        FileSource { table }
    }
}

impl Tabled for FileSource {
    ghost held = { λ s. s.table };

    fn table(&self) -> &ListTable {
        &self.table
    }
}
