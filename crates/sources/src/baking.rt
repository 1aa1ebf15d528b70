//! Writing any source's lists as a level file.
ghost use Rattle.sources.specs.Files.{Baked};

use crate::reading::list_of;
use crate::source::Source;
use codec::BLOCK;
use faults::{Fault, Layer, Place, Refusal};
use lists::ROOM;

/// Writes the file of a source's lists into memory of exactly its size, and gives the number of blocks.
/// Memory of another size is refused and as it was.
pub fn bake<S: Source>(source: &S, out: &mut [u8]) -> Result<u8, Fault>
    ensures { Baked (S.Source.lists source.now) out.old out.new result }
{
    let count = source.count();
    if out.len() != BLOCK * (usize::from(count) + 1) {
        return Err(Layer::File.refuses(Refusal::WrongSize, Place::At(0)));
    }
    let _ = codec::write_header(&mut out[0..BLOCK], count);
    let mut buffer = [0; ROOM];
    for door in 0..count {
        let list = list_of(source, door, &mut buffer);
        // stays: a rule of the project: the row writer is lent the 512 bytes from 512·(d + 1) for door d
        let start = BLOCK * (usize::from(door) + 1);
        let _ = codec::write_row(&mut out[start..start + BLOCK], door, list);
    }
    Ok(count + 1)
}
