//! The level file of the current folder, as every program reads it.

#![tactic(auto)]

ghost use Rattle.std.specs.Prelude.{◌≤◌, length, IfOk, vec_len};
ghost use Rattle.levels.specs.Starts.{enough, StartDecides};

use codec::BLOCK;
use lists::MOST_DOORS;
use std::alloc::AllocError;
use std::io::Read;
use std::rt::Files;
use std::{fs, io};

// The name of the file.
const NAME: &str = "level.door";

// One byte more than the longest level file has, with a block for the header and one for each door. What comes behind them does not
// change the verdict.
const ENOUGH: usize = BLOCK * (MOST_DOORS as usize + 1) + 1;

// Reads until the buffer is full or the input ends, and gives the number of bytes.
// stays: `read_to_end` over `take` was tried: the library promises its count only where the reader's bytes are known, so nothing held the bound
fn fill<I: Read>(input: &mut I, buffer: &mut [u8]) -> io::Result<usize>
    ensures { IfOk result (λ n. n ≤ length buffer.new) }
{
    let mut filled = 0;
    while filled < buffer.len() {
        let count = input.read(&mut buffer[filled..])?;
        if count == 0 {
            break;
        }
        filled += count;
    }
    Ok(filled)
}

// The start of the file, as far as the buffer goes.
fn read_start<R: Files>(rt: &R, buffer: &mut [u8]) -> io::Result<usize>
    ensures { IfOk result (λ n. n ≤ length buffer.new) }
{
    let mut file = fs::open(rt, NAME)?;
    fill(&mut file, buffer)
}

/// The level file, or as much of a longer file as decides its verdict: one byte more than the longest level file has. A file that
/// cannot be read counts as empty.
pub fn read_level<R: Files + AllocGlobal>(rt: &R) -> Result<Vec<u8>, AllocError>
    ensures { IfOk result (λ bytes. vec_len bytes ≤ enough) }
{
    let mut bytes = vec![in rt.alloc(); 0; ENOUGH]?;
    let count = read_start(rt, &mut bytes).unwrap_or(0);
    bytes.truncate(count);
    Ok(bytes)
}

/// A file is judged by its start.
pub fn start_decides()
    ensures { StartDecides }
{}
