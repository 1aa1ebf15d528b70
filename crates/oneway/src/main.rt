//! Links the doors of the level file one way, for the sides that a line of standard input gives them.

#![tactic(auto)]

use oneway_text::one_way_file;
use std::io;
use std::io::{BufRead, Lock, Read};

// One character more than a level can have doors: such a line is refused, however it goes on.
const LONGEST: u64 = 97;

// The line of sides, with its end where that came.
fn read_line(rt: &HostRuntime) -> io::Result<Vec<u8>> {
    let mut line = Vec::new(rt.alloc());
    rt.stdin()
        .lock()
        .take(LONGEST)
        .read_until(b'\n', &mut line)?;
    Ok(line)
}

fn main(rt: HostRuntime) -> io::Result<()> {
    let file = levels::read_level(&rt)?;
    let line = read_line(&rt)?;
    let sides = line.strip_suffix(b"\n").unwrap_or(&line);
    let text = one_way_file(rt.alloc(), &file, sides)?;
    println!(rt; "{text}")
}
