//! Writing the blocks of a level file.
ghost use Rattle.std.specs.Prelude.{◌≡◌, ◌+◌, ◌≤◌, ◌++◌, length, take};
ghost use Rattle.codec.specs.Blocks.{block_check, low_high, zeros, padded, sealed, header, row_block};
ghost use Rattle.codec.specs.Verdicts.{Written};

use crate::block::{BODY, Block, OPENING, ROW_MARK, block_check, wrong_size};
use faults::Fault;

/// Writes the header of a file of n doors into a block. Memory of another size is refused and as it was.
#[tactic(auto, unfolding(crate::specs::Blocks::header))]
pub fn write_header(block: &mut [u8], n: u8) -> Result<(), Fault>
    ensures { Written (length block.old ≡ 512) (header n) block.old block.new result }
{
    let Some(block) = block.as_mut_array() else {
        return Err(wrong_size());
    };
    write_block(block, &OPENING, &[n]);
    Ok(())
}

/// Writes the block of a door with its list, which is at most 255 long, since its length is one byte.
/// A longer list, or memory of another size, is refused, and the memory is as it was.
#[tactic(auto, unfolding(crate::specs::Blocks::row_block))]
pub fn write_row(block: &mut [u8], door: u8, list: &[u8]) -> Result<(), Fault>
    ensures { Written ((length block.old ≡ 512) × (length list.now ≤ 255)) (row_block door list.now) block.old block.new result }
{
    let Ok(length) = u8::try_from(list.len()) else {
        return Err(wrong_size());
    };
    let Some(block) = block.as_mut_array() else {
        return Err(wrong_size());
    };
    write_block(block, &[ROW_MARK, door, length], list);
    Ok(())
}

// Writes the block that opens with these bytes, in two parts. What it held does not matter.
#[tactic(auto, using(crate::proofs::Writing::sealed_body))]
fn write_block(block: &mut Block, head: &[u8], list: &[u8])
    requires { length head.now + length list.now ≤ 510 }
    ensures { block.new ≡ sealed (head.now ++ list.now) }
{
    write_body(block, head, list);
    seal(block);
}

// Writes what a block opens with, in two parts, and zeros up to its check.
#[tactic(auto, using(crate::proofs::Writing::body_laid))]
fn write_body(block: &mut Block, head: &[u8], list: &[u8])
    requires { length head.now + length list.now ≤ 510 }
    ensures { take 510 block.new ≡ padded (head.now ++ list.now) }
{
    let end = head.len() + list.len();
    block[..head.len()].copy_from_slice(head);
    block[head.len()..end].copy_from_slice(list);
    clear(&mut block[end..BODY]);
}

// Fills a stretch with zeros.
fn clear(stretch: &mut [u8])
    ensures { stretch.new ≡ zeros (length stretch.old) }
{
    stretch.fill(0);
}

// Writes the check of a block.
#[tactic(auto, using(crate::proofs::Writing::end_put))]
fn seal(block: &mut Block)
    ensures { block.new ≡ take 510 block.old ++ low_high (block_check block.old) }
{
    let check = block_check(block).to_le_bytes();
    block[BODY..].copy_from_slice(&check);
}
