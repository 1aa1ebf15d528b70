//! One-way linking: exits propose to entrances.
ghost use Rattle.std.specs.Prelude.{◌≡◌, ◌*◌, ◌≤◌, length, MatchOption};
ghost use Rattle.linker.specs.Meanings.{lists_in};
ghost use Rattle.matching.specs.Proposals.{OneWayResult};
ghost use Rattle.linker.specs.OneWay.{Room, FirstBad, SidesFit, OneWay};

use crate::exits::Exits;
use crate::sizes::memory_for;
use crate::tables::{Read, Tables};
use faults::{Fault, Layer, Place, Refusal};
use sources::Source;

// The index of the first side byte above 1.
fn bad_side(sides: &[u8]) -> Option<usize>
    ensures { MatchOption result (SidesFit sides.now) (λ i. FirstBad sides.now i) }
{
    sides.iter().position(|side| *side > 1)
}

// Lets the exits propose and writes the partners down. The answer is the number of proposals.
fn link_tables(tables: Tables<'_>, sides: &[u8], out: &mut [u16], memory: &mut [u16]) -> u16
    requires written { length out.old ≡ tables.count }
    requires worked { 6 * tables.count ≤ length memory.old }
    ensures { OneWayResult (lists_in tables.entry) sides.now out.new result }
{
    let mut exits = Exits::in_memory(tables, sides, memory);
    exits.propose_all();
    exits.write_partners(out);
    exits.made
}

// Reads the lists and links the exits. The answer is the number of proposals.
// stays: alike `link_doors` of all doors; handed what to do with the tables, its contract would be longer than these two lines
fn link_exits<S: Source>(source: &S, sides: &[u8], out: &mut [u16], memory: &mut [u16]) -> u16
    requires { Room (length (S.Source.lists source.now)) sides.now out.old memory.old }
    ensures { OneWayResult (S.Source.lists source.now) sides.now out.new result }
{
    let Read { tables, rest } = Tables::read(source, memory);
    link_tables(tables, sides, out, rest)
}

/// Links the exits of a source with its entrances: exits propose in the order of their lists, entrances keep the exit that they prefer.
///
/// `sides` has one byte for each door, 0 for an exit and 1 for an entrance. `out` has one number for each door and gets its partner, or
/// 65535 for a door that stays alone. `memory` is what the linker works in, at least 3·n·n + 8·n numbers for n doors; what stands there
/// before does not matter. The answer is the number of proposals.
///
/// Errors are the linker's and leave `out` and `memory` as they were: `WrongSize` at number 0 for other sizes, and `BadSide` at the index
/// of the first side byte above 1.
pub fn one_way_link<S: Source>(
    source: &S,
    sides: &[u8],
    out: &mut [u16],
    memory: &mut [u16],
) -> Result<u16, Fault>
    ensures { OneWay (S.Source.lists source.now) sides.now out.old out.new memory.old memory.new result }
{
    let n = source.count() as usize;
    if out.len() != n || sides.len() != n || memory.len() < memory_for(source.count()) {
        return Err(Layer::Linker.refuses(Refusal::WrongSize, Place::At(0)));
    }
    if let Some(i) = bad_side(sides) {
        return Err(Layer::Linker.refuses(Refusal::BadSide, Place::At(i as u32)));
    }
    Ok(link_exits(source, sides, out, memory))
}
