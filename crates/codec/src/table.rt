//! Reading the lists of a level file.
ghost use Rattle.std.specs.Prelude.{◌≡◌};
ghost use Rattle.lists.specs.Tables.{lists};
ghost use Rattle.codec.specs.Blocks.{baking, list_in};
ghost use Rattle.codec.specs.Verdicts.{FileOf, Opened};

use crate::block::{Block, LIST_AT, blocks};
use crate::verdict::check;
use faults::Fault;
use lists::ListTable;

/// Checks a whole file and reads its lists. Refused with the file's first fault.
pub fn read(bytes: &[u8]) -> Result<ListTable, Fault>
    ensures { Opened bytes.now result }
{
    let n = check(bytes)?;
    Ok(table_of(bytes, n))
}

// The lists of an accepted file of n doors.
fn table_of(bytes: &[u8], n: u8) -> ListTable
    requires { FileOf n bytes.now }
    ensures { bytes.now ≡ baking (lists result) }
{
    let mut table = ListTable::empty(n);
    for (i, row) in blocks(bytes)[1..].iter().enumerate() {
        table.put(i as u8, list_in(row));
    }
    table
}

// The list in the block of a door.
#[tactic(auto, unfolding(crate::specs::Blocks::list_in))]
fn list_in(row: &Block) -> &[u8]
    ensures { result.now ≡ list_in row.now }
{
    let end = LIST_AT + usize::from(row[2]);
    &row[LIST_AT..end]
}
