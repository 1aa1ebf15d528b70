//! Two-way linking: all doors propose, then rotations are eliminated.
ghost use Rattle.std.specs.Prelude.{◌≡◌, ◌*◌, ◌≤◌, length};
ghost use Rattle.linker.specs.Meanings.{lists_in};
ghost use Rattle.linker.specs.Links.{Space, Linked, DoorsLinked};

use crate::marks::Emptied;
use crate::sizes::memory_for;
use crate::tables::{Read, Tables};
use crate::work::Work;
use faults::{Fault, Layer, Place, Refusal};
use sources::Source;

impl From<Emptied> for Fault {
    ghost use Rattle.std.specs.Prelude.{◌≡◌};
    ghost use Rattle.faults.specs.declared.Refusal.TheVariants.{NoStableLinking};
    ghost use Rattle.linker.specs.OneWay.{linker_fault};

    ghost from_gives = { λ e f. f ≡ linker_fault NoStableLinking 0 };

    fn from(_emptied: Emptied) -> Fault {
        Layer::Linker.refuses(Refusal::NoStableLinking, Place::At(0))
    }
}

// Lets the doors propose, eliminates rotations and writes the partners down.
fn link_tables(tables: Tables<'_>, out: &mut [u16], memory: &mut [u16]) -> Result<(), Emptied>
    requires written { length out.old ≡ tables.count }
    requires worked { 6 * tables.count ≤ length memory.old }
    ensures { DoorsLinked (lists_in tables.entry) out.old out.new result }
{
    let mut work = Work::in_memory(tables, memory);
    work.marks.propose_all();
    work.reduce()?;
    work.marks.write_links(out);
    Ok(())
}

// Reads the lists and links the doors.
// stays: alike `link_exits`; one for both would have a longer contract than its two lines
fn link_doors<S: Source>(source: &S, out: &mut [u16], memory: &mut [u16]) -> Result<(), Emptied>
    requires { Space (length (S.Source.lists source.now)) out.old memory.old }
    ensures { DoorsLinked (S.Source.lists source.now) out.old out.new result }
{
    let Read { tables, rest } = Tables::read(source, memory);
    link_tables(tables, out, rest)
}

/// Links the doors of a source, so that no two doors would rather have each other than whom they got.
///
/// `out` has one number for each door and gets its partner, or 65535 for a door that stays alone. `memory` is what the linker works in,
/// at least 3·n·n + 8·n numbers for n doors; what stands there before does not matter.
///
/// Both errors are the linker's, at number 0: `WrongSize` for other sizes, with `out` and `memory` left as they were, and `NoStableLinking`
/// where every linking has two doors that would rather have each other, with `out` left as it was.
pub fn link<S: Source>(source: &S, out: &mut [u16], memory: &mut [u16]) -> Result<(), Fault>
    ensures { Linked (S.Source.lists source.now) out.old out.new memory.old memory.new result }
{
    let n = source.count() as usize;
    if out.len() != n || memory.len() < memory_for(source.count()) {
        return Err(Layer::Linker.refuses(Refusal::WrongSize, Place::At(0)));
    }
    link_doors(source, out, memory)?;
    Ok(())
}
