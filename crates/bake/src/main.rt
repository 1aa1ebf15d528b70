//! Bakes `level.door` from a survey on standard input, reads it back, and says what was found.

#![tactic(auto)]

use std::io::Read;
use std::{fs, io};

// The level file, in the current folder.
const LEVEL: &str = "level.door";

fn main(rt: HostRuntime) -> io::Result<()> {
    let heap = rt.alloc();
    let mut text = Vec::new(heap);
    rt.stdin().read_to_end(&mut text)?;
    match surveying::rank_survey(heap, &text) {
        Ok(table) => {
            let file = surveying::level_file(heap, &table)?;
            fs::write(&rt, LEVEL, &file)?;
            let back = fs::read(&rt, LEVEL)?;
            let text = surveying::summary(heap, &table, &back)?;
            print!(rt; "{text}")
        }
        Err(error) => println!(rt; "{error}"),
    }
}
