//! Lists by a survey of the ground.
ghost use Rattle.lists.specs.Tables.{lists as rows};
ghost use Rattle.sources.specs.Grounds.{GroundMeans};

use crate::tabled::Tabled;
use lists::ListTable;
use survey::Record;

/// The doors of a survey, ranked once, when it is made.
// stays: a twin of the file's source; one type over a marker would add two empty types
#[derive(Drop)]
pub struct GroundSource {
    table: ListTable,
}

impl GroundSource {
    /// The source of a survey: its lists are those of the ground rule. Where the survey is refused it has no doors.
    pub fn new(records: &[Record]) -> GroundSource
        ensures { GroundMeans records.now (rows result.table) }
    {
        let table = survey::rank(records).unwrap_or_else(|_| ListTable::empty(0));
        GroundSource { table }
    }
}

impl Tabled for GroundSource {
    ghost held = { λ s. s.table };

    fn table(&self) -> &ListTable {
        &self.table
    }
}
