//! Times both linkers on `level.door`: over the file, over a level, and over a level with edits. The argument is the number of rounds; with 0
//! rounds it prints the linkings and no times.

#![tactic(auto)]

use faults::Fault;
use level::{Level, strike_once};
use linker::{link, memory_for, one_way_link};
use sources::{FileSource, Source};
use std::time::Instant;
use std::{array, env, io};

// The number of rounds that the first argument asks for; 0 where it is no number.
// stays: no plainer as an `Option`: a missing argument and 0 both ask for the linkings
fn rounds_asked(rt: &HostRuntime) -> io::Result<u32> {
    let word = env::args(rt)?.nth(1);
    Ok(word.and_then(|word| word.parse().ok()).unwrap_or(0))
}

// Strikes doors 90 to 95, forbids 0 and 1, favours 3 at 2.
fn edit(level: &mut Level) {
    for door in 90..96u8 {
        let _ = strike_once(level, door);
    }
    let _ = level.forbid(0, 1);
    let _ = level.favour(2, 3);
}

// Prints a linking, door by door, behind its name; `none` where there is none.
fn show(rt: &HostRuntime, linking: Option<&[u16]>) -> io::Result<()> {
    match linking {
        Some(partners) => {
            for partner in partners {
                print!(rt; " {partner}")?;
            }
        }
        None => print!(rt; " none")?,
    }
    println!(rt; "")
}

// What is timed: a linker over any source, in lent memory.
trait Timed {
    // The name that is printed.
    fn name(&self) -> &'static str;

    fn link<S: Source>(&self, source: &S, out: &mut [u16], memory: &mut [u16]) -> Result<(), Fault>;
}

#[derive(Drop)]
struct TwoWay;

impl Timed for TwoWay {
    fn name(&self) -> &'static str {
        "link"
    }

    fn link<S: Source>(
        &self,
        source: &S,
        out: &mut [u16],
        memory: &mut [u16],
    ) -> Result<(), Fault> {
        link(source, out, memory)
    }
}

#[derive(Drop)]
struct OneWay {
    // 0 for an exit, 1 for an entrance
    sides: [u8; 96],
}

impl Timed for OneWay {
    fn name(&self) -> &'static str {
        "one-way"
    }

    fn link<S: Source>(
        &self,
        source: &S,
        out: &mut [u16],
        memory: &mut [u16],
    ) -> Result<(), Fault> {
        one_way_link(source, &self.sides[..out.len().min(96)], out, memory)?;
        Ok(())
    }
}

// Links `rounds` times, at least once, and prints the linking or the nanoseconds of a round.
fn time<L: Timed, S: Source>(
    rt: &HostRuntime,
    name: &str,
    linker: &L,
    source: &S,
    rounds: u32,
) -> io::Result<()> {
    let mut out = vec![in rt.alloc(); 0u16; usize::from(source.count())]?;
    let mut memory = vec![in rt.alloc(); 0u16; memory_for(96)]?;
    let mut linked = Ok(());
    let start = Instant::now(rt)?;
    for _ in 0..rounds.max(1) {
        linked = linker.link(source, out.as_mut_slice(), memory.as_mut_slice());
    }
    let spent = start.elapsed(rt)?.as_nanos();
    print!(rt; "{name} {}", linker.name())?;
    if rounds > 0 {
        return println!(rt; " {}", spent / u128::from(rounds));
    }
    show(rt, linked.is_ok().then_some(out.as_slice()))
}

// Times both linkers over a source; one way, even doors are exits and odd ones entrances.
fn time_both<S: Source>(rt: &HostRuntime, name: &str, source: &S, rounds: u32) -> io::Result<()> {
    time(rt, name, &TwoWay, source, rounds)?;
    let one_way = OneWay {
        sides: array::from_fn(|door| (door % 2) as u8),
    };
    time(rt, name, &one_way, source, rounds)
}

fn main(rt: HostRuntime) -> io::Result<()> {
    let rounds = rounds_asked(&rt)?;
    let bytes = levels::read_level(&rt)?;
    let file = FileSource::new(&bytes);
    time_both(&rt, "file", &file, rounds)?;
    let mut level = Level::new(&file);
    time_both(&rt, "level", &level, rounds)?;
    edit(&mut level);
    time_both(&rt, "edited", &level, rounds)
}
