//! The check of a level file: its first fault, or the number of its doors.
ghost use Rattle.std.specs.Prelude.{◌≡◌, ℕ, ◌<◌, Option};
ghost use Rattle.faults.specs.declared.Refusal.{Refusal};
ghost use Rattle.codec.specs.Findings.{checked, header_fault, may_follow, row_fault};
ghost use Rattle.codec.specs.Verdicts.{Verdict, HeaderVerdict, Judged};

use crate::block::{
    BLOCK, BODY, Block, LIST_AT, OPENING, ROW_MARK, block_check, blocks, wrong_size,
};
use faults::{Fault, Layer, Place, Refusal};
use lists::MOST_DOORS;

// The byte of the header with the number of doors.
const DOORS_AT: usize = 5;

/// Checks a whole file. The number of its doors, or its first fault.
pub fn check(bytes: &[u8]) -> Result<u8, Fault>
    ensures { Judged bytes.now result }
{
    let [header, rows @ ..] = blocks(bytes) else {
        return Err(wrong_size());
    };
    let doors = check_header(header)?;
    if bytes.len() != BLOCK * (usize::from(doors) + 1) {
        return Err(wrong_size());
    }
    for (i, block) in rows.iter().enumerate() {
        let row = Row {
            doors,
            door: i as u8,
        };
        check_block(row.door + 1, block, |byte| row.refusal(block, byte))?;
    }
    Ok(doors)
}

// Checks the header block, and reads the number of doors.
fn check_header(block: &Block) -> Result<u8, Fault>
    ensures { HeaderVerdict block.now result }
{
    check_block(0, block, |i| header_refusal(block, i))?;
    // stays: a rule of the project: the header is taken apart by a slice pattern with its fixed bytes, its count and the rest
    match block {
        [0x44, 0x4F, 0x4F, 0x52, 1, n, _rest @ ..] => Ok(*n),
        _ => unreachable(),
    }
}

// Checks a block: first its check, then its bytes in order, each by what is wrong with it.
fn check_block<F: Fn(usize) -> Option<Refusal>>(
    number: u8,
    block: &Block,
    wrong: F,
) -> Result<(), Fault>
    requires { (i : ℕ) → i < 510 → F.pre wrong i }
    ensures { (ask : ℕ → Option Refusal) → ((i : ℕ) (r : Option Refusal) → F.post wrong i r → r ≡ ask i) → Verdict number ask block.now result }
{
    if !is_sealed(block) {
        return Err(Layer::File.refuses(
            Refusal::BlockCheck,
            Place::Byte {
                block: number,
                byte: BODY as u16,
            },
        ));
    }
    // stays: a loop, for `(0..BODY).find_map(..)` was tried, and its proof did not close
    for i in 0..BODY {
        if let Some(refusal) = wrong(i) {
            return Err(Layer::File.refuses(
                refusal,
                Place::Byte {
                    block: number,
                    byte: i as u16,
                },
            ));
        }
    }
    Ok(())
}

// Whether a block's last two bytes are its check.
#[tactic(auto, unfolding(crate::specs::Findings::checked))]
fn is_sealed(block: &Block) -> bool
    ensures { result ≡ checked block.now }
{
    block[BODY..] == block_check(block).to_le_bytes()[..]
}

// What is wrong with byte i of a header block, if anything.
#[tactic(auto, unfolding(crate::specs::Findings::header_fault))]
fn header_refusal(block: &Block, i: usize) -> Option<Refusal>
    requires { i < 510 }
    ensures { result ≡ header_fault block.now i }
{
    if i == DOORS_AT {
        return (block[i] > MOST_DOORS).then_some(Refusal::TooManyDoors);
    }
    let fixed = OPENING.get(i).copied().unwrap_or(0);
    (block[i] != fixed).then_some(Refusal::FixedByte)
}

// The row of a door in a file of so many doors.
#[derive(Clone, Copy)]
struct Row {
    doors: u8,
    door: u8,
}

impl Row {
    // What is wrong with byte i of the block of the door, if anything.
    #[tactic(auto, unfolding(crate::specs::Findings::row_fault))]
    fn refusal(self, block: &Block, i: usize) -> Option<Refusal>
        requires { i < 510 }
        ensures { result ≡ row_fault self.doors self.door block.now i }
    {
        let byte = block[i];
        match i {
            0 => (byte != ROW_MARK).then_some(Refusal::FixedByte),
            1 => (byte != self.door).then_some(Refusal::FixedByte),
            2 => (byte >= self.doors).then_some(Refusal::BadList),
            _ if i < LIST_AT + usize::from(block[2]) => {
                (!self.may_follow(&block[LIST_AT..i], byte)).then_some(Refusal::BadList)
            }
            _ => (byte != 0).then_some(Refusal::FixedByte),
        }
    }

    // Whether a door may come after the doors `before` on the list.
    #[tactic(auto, using(crate::proofs::Listed::listed_same), unfolding(crate::specs::Findings::may_follow))]
    fn may_follow(self, before: &[u8], door: u8) -> bool
        ensures { result ≡ may_follow self.doors self.door before.now door }
    {
        door < self.doors && door != self.door && !before.contains(&door)
    }
}
