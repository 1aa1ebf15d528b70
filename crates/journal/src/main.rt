//! Makes the calls of standard input on the level of the level file, and prints their answers and a summary.

#![tactic(auto)]

use journaling::file_journal;
use std::io;
use std::io::Read;

fn main(rt: HostRuntime) -> io::Result<()> {
    let file = levels::read_level(&rt)?;
    let mut input = Vec::new(rt.alloc());
    rt.stdin().read_to_end(&mut input)?;
    let text = file_journal(rt.alloc(), &file, &input)?;
    print!(rt; "{text}")
}
