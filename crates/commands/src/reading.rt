//! Commands, read from a line.
ghost use Rattle.commands.specs.Written.{ReadsCommand};

use text::{byte, pair};

/// What a line of the console says. Doors are numbers from 0 to 255.
#[derive(Clone, Copy, PartialEq, Eq, Debug)]
pub enum Command {
    /// claims a door and strikes it
    Strike(u8),
    /// takes two doors off each other's lists
    Forbid(u8, u8),
    /// moves the second door to the head of the first one's list
    Favour(u8, u8),
    /// links the level as it stands
    Link,
}

/// The command that is written so: a letter and its numbers, each after one space. Nothing where the line is of another form.
pub fn read_command(line: &[u8]) -> Option<Command>
    ensures { ReadsCommand line.now result }
{
    match line {
        [b's', b' ', door @ ..] => Some(Command::Strike(byte(door)?)),
        [b'x', b' ', doors @ ..] => {
            let (a, b) = pair(doors)?;
            Some(Command::Forbid(a, b))
        }
        [b'f', b' ', doors @ ..] => {
            let (a, b) = pair(doors)?;
            Some(Command::Favour(a, b))
        }
        [b'l'] => Some(Command::Link),
        _ => None,
    }
}
