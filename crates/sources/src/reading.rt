//! Reading a source's lists by asking for places.
ghost use Rattle.std.specs.Prelude.{◌≡◌};
ghost use Rattle.lists.specs.Tables.{lists as rows};
ghost use Rattle.matching.specs.Lists.{row};

use crate::source::Source;
use lists::{ListTable, ROOM};

// Memory for one list.
// stays: an array, for the list is written at the places that the source answers, out of order, and an ArrayVec is filled in order
pub(crate) type Buffer = [u8; ROOM];

// The list of `door`, written to the front of `buffer`.
pub(crate) fn list_of<'a, S: Source>(source: &S, door: u8, buffer: &'a mut Buffer) -> &'a [u8]
    ensures { result.now ≡ row (S.Source.lists source.now) door }
{
    for other in 0..source.count() {
        if let Some(at) = source.place(door, other) {
            buffer[usize::from(at)] = other;
        }
    }
    &buffer[..usize::from(source.length(door))]
}

/// A table with the lists of a source.
pub fn copied<S: Source>(source: &S) -> ListTable
    ensures { rows result ≡ S.Source.lists source.now }
{
    let count = source.count();
    let mut table = ListTable::empty(count);
    let mut buffer = [0; ROOM];
    for door in 0..count {
        let _ = table.put(door, list_of(source, door, &mut buffer));
    }
    table
}
