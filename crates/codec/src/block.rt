//! The blocks of a level file: their sizes, their check and their fixed bytes.
ghost use Rattle.std.specs.Prelude.{◌≡◌, ℕ, ◌+◌, ◌*◌, ◌<◌, ◌≤◌, [], length, take, slice_index_or};
ghost use Rattle.codec.specs.Blocks.{block_check, block_of};
ghost use Rattle.codec.specs.Findings.{in_file};
ghost use Rattle.faults.specs.declared.Place.TheVariants.{At};
ghost use Rattle.faults.specs.declared.Refusal.TheVariants.{WrongSize};

use faults::{Fault, Layer, Place, Refusal};

/// The bytes of a block.
pub const BLOCK: usize = 512;
// A block of a file.
pub(crate) type Block = [u8; BLOCK];
// The bytes of a block that its check counts.
pub(crate) const BODY: usize = 510;
// The modulus of a block's check.
const MODULUS: u32 = 65521;
// How every file begins: the letters DOOR, then version 1.
pub(crate) const OPENING: [u8; 5] = [0x44, 0x4F, 0x4F, 0x52, 1];
// The first byte of a door's block.
pub(crate) const ROW_MARK: u8 = 0x52;
// Where the list begins in a door's block.
pub(crate) const LIST_AT: usize = 3;

/// The check of a block: its first 510 bytes (all, if there are fewer) weighed by 1, 2, 3 and on.
#[tactic(auto, using(crate::proofs::Weights::weighed_more, crate::proofs::Weights::weighed_none, crate::proofs::Weights::weight_bound), unfolding(crate::specs::Blocks::block_check))]
pub fn block_check(block: &[u8]) -> u16
    ensures { result ≡ block_check block.now }
{
    let mut sum: u32 = 0;
    // stays: `zip(1..).map(..).sum()` was tried, and its proof did not close: nothing bounds the sum
    for (i, byte) in body(block).iter().enumerate() {
        sum += (i as u32 + 1) * u32::from(*byte);
    }
    (sum % MODULUS) as u16
}

// The bytes of a block that its check counts.
#[tactic(auto, using(std::proofs::lemmas::List::take_min))]
fn body(block: &[u8]) -> &[u8]
    ensures value { result.now ≡ take 510 block.now }
    ensures len { length result.now ≤ 510 }
{
    &block[..BODY.min(block.len())]
}

// The whole blocks of a file, its header first.
#[tactic(auto, using(crate::proofs::Blocks::chunk_is_block))]
pub(crate) fn blocks(bytes: &[u8]) -> &[Block]
    ensures within { 512 * length result.now ≤ length bytes.now }
    ensures whole { length bytes.now < 512 * (length result.now + 1) }
    ensures each { (b : ℕ) → b < length result.now → slice_index_or result.now b [] ≡ block_of bytes.now b }
{
    let (blocks, _) = bytes.as_chunks::<BLOCK>();
    blocks
}

// The fault of bytes that are no file for their number alone.
pub(crate) fn wrong_size() -> Fault
    ensures { result ≡ in_file WrongSize (At 0) }
{
    Layer::File.refuses(Refusal::WrongSize, Place::At(0))
}
