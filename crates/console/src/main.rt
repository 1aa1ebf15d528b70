//! The console: commands on the level of the current folder, each answered as it comes.

#![tactic(auto)]

use commands::{LineBuffer, answer};
use level::Level;
use std::io;
use std::io::Read;
use text::RefusedFile;

// As much input as is taken at once.
const CHUNK: usize = 4096;

// Answers the line that came, and begins the next.
fn reply(rt: &HostRuntime, level: &mut Level, line: &mut LineBuffer) -> io::Result<()> {
    let text = answer(rt.alloc(), level, line.line())?;
    line.clear();
    println!(rt; "{text}")
}

// Takes the bytes that came, and answers each line that they end.
fn hear(
    rt: &HostRuntime,
    level: &mut Level,
    line: &mut LineBuffer,
    bytes: &[u8],
) -> io::Result<()> {
    for &byte in bytes {
        if line.feed(byte) {
            reply(rt, level, line)?;
        }
    }
    Ok(())
}

// Answers each line as it comes. The last may lack its end.
// stays: a chunk without heap: the `bytes` of a buffered reader were tried, took several times as long a byte, and 8 KB before the first line
fn converse(rt: &HostRuntime, level: &mut Level) -> io::Result<()> {
    let mut line = LineBuffer::new();
    let mut input = rt.stdin();
    let mut chunk = [0; CHUNK];
    for _ in 0..u64::MAX {
        let count = input.read(&mut chunk)?;
        if count == 0 {
            break;
        }
        hear(rt, level, &mut line, &chunk[..count])?;
    }
    if line.is_empty() {
        return Ok(());
    }
    reply(rt, level, &mut line)
}

fn main(rt: HostRuntime) -> io::Result<()> {
    let file = levels::read_level(&rt)?;
    match codec::read(&file) {
        Ok(table) => converse(&rt, &mut Level::new(&table)),
        Err(fault) => println!(rt; "{}", RefusedFile(fault)),
    }
}
