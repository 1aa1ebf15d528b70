//! Refusals: what was wrong, which layer says so, and where.

#![tactic(auto)]

ghost use Rattle.std.specs.Prelude.{◌≡◌, Some};
ghost use Rattle.faults.specs.Number.{number, Numbers, NumbersDiffer};
ghost use Rattle.faults.specs.Words.{layer_word, place_text, refused_text, unknown_text};

use std::fmt;

/// What was wrong. `specs/Number` gives each its number.
#[derive(Clone, Copy, PartialEq, Eq, Debug)]
pub enum Refusal {
    /// a door number that is not below the number of doors
    NoSuchDoor,
    /// both doors are one
    SameDoor,
    /// the door was struck
    DoorGone,
    /// the door is held by a claim
    DoorHeld,
    /// the second door is not on the first one's list
    NotListed,
    /// the table of live favours or forbidden pairs is full
    TableFull,
    /// output, memory, sides or file of the wrong size
    WrongSize,
    /// a side byte above 1
    BadSide,
    /// every linking has a blocking pair
    NoStableLinking,
    /// a fixed byte of a file differs
    FixedByte,
    /// the check of a block differs
    BlockCheck,
    /// a bad list length, or an own, unknown or repeated door on a list
    BadList,
    /// a kind that is not in the table
    BadKind,
    /// more doors than a level can have
    TooManyDoors,
    /// the claim does not hold the door, or the door is not held
    NotHolder,
    /// no more claims can be granted
    ClaimsSpent,
    /// a line that is no command
    UnreadLine,
}

/// Which part refused.
#[derive(Clone, Copy, PartialEq, Eq, Debug)]
pub enum Layer {
    /// the format of level files
    File,
    /// the rule that ranks the doors of a survey
    Ground,
    /// the edits and claims of a level
    Level,
    /// the linkers
    Linker,
    /// the lines that a program reads
    Console,
}

/// Where: one number, or a byte of a block of a file.
#[derive(Clone, Copy, PartialEq, Eq, Debug)]
pub enum Place {
    /// a door, a record or a line; 0 where there is none to name
    At(u32),
    /// a byte of a level file
    Byte {
        /// the block, counted from 0, the header
        block: u8,
        /// the byte of the block, from 0 to 511
        byte: u16,
    },
}

/// A refusal with its layer and place. Upper layers pass it on whole.
#[derive(Clone, Copy, PartialEq, Eq, Debug)]
pub struct Fault {
    /// what was wrong
    pub refusal: Refusal,
    /// which part says so
    pub layer: Layer,
    /// where
    pub place: Place,
}

impl Layer {
    /// A refusal by this layer.
    pub fn refuses(self, refusal: Refusal, place: Place) -> Fault
        ensures { result ≡ record { refusal = refusal; layer = self; place = place } }
    {
        Fault {
            refusal,
            layer: self,
            place,
        }
    }
}

/// No two refusals have one number.
pub fn numbers_differ()
    ensures { NumbersDiffer }
{}

impl Refusal {
    /// The number that stands for this refusal in files, answers and documents.
    pub fn number(self) -> u8
        ensures { result ≡ number self }
    {
        // stays: no plainer: cases are numbered in their order from 0 and no refusal has 15, so each way is a match
        match self {
            Refusal::NoSuchDoor => 1,
            Refusal::SameDoor => 2,
            Refusal::DoorGone => 3,
            Refusal::DoorHeld => 4,
            Refusal::NotListed => 5,
            Refusal::TableFull => 6,
            Refusal::WrongSize => 7,
            Refusal::BadSide => 8,
            Refusal::NoStableLinking => 9,
            Refusal::FixedByte => 10,
            Refusal::BlockCheck => 11,
            Refusal::BadList => 12,
            Refusal::BadKind => 13,
            Refusal::TooManyDoors => 14,
            Refusal::NotHolder => 16,
            Refusal::ClaimsSpent => 17,
            Refusal::UnreadLine => 18,
        }
    }
}

// The refusal as its number.
impl From<Refusal> for u8 {
    ghost from_gives = { λ refusal n. n ≡ number refusal };

    fn from(refusal: Refusal) -> u8 {
        refusal.number()
    }
}

/// A number that no refusal has.
#[derive(Clone, Copy, PartialEq, Eq, Debug)]
pub struct UnknownRefusal(pub u8);

// The refusal that a number stands for.
impl TryFrom<u8> for Refusal {
    type Error = UnknownRefusal;

    ghost try_from_gives = { Numbers };

    fn try_from(number: u8) -> Result<Refusal, UnknownRefusal> {
        match number {
            1 => Ok(Refusal::NoSuchDoor),
            2 => Ok(Refusal::SameDoor),
            3 => Ok(Refusal::DoorGone),
            4 => Ok(Refusal::DoorHeld),
            5 => Ok(Refusal::NotListed),
            6 => Ok(Refusal::TableFull),
            7 => Ok(Refusal::WrongSize),
            8 => Ok(Refusal::BadSide),
            9 => Ok(Refusal::NoStableLinking),
            10 => Ok(Refusal::FixedByte),
            11 => Ok(Refusal::BlockCheck),
            12 => Ok(Refusal::BadList),
            13 => Ok(Refusal::BadKind),
            14 => Ok(Refusal::TooManyDoors),
            16 => Ok(Refusal::NotHolder),
            17 => Ok(Refusal::ClaimsSpent),
            18 => Ok(Refusal::UnreadLine),
            _ => Err(UnknownRefusal(number)),
        }
    }
}

impl fmt::Display for Layer {
    ghost output = { λ layer. Some (layer_word layer) };

    fn fmt<W: fmt::Write>(&self, f: &mut fmt::Formatter<W>) -> fmt::Result {
        f.write_str(match self {
            Layer::File => "file",
            Layer::Ground => "ground",
            Layer::Level => "level",
            Layer::Linker => "linker",
            Layer::Console => "console",
        })
    }
}

impl fmt::Display for Place {
    ghost output = { λ place. Some (place_text place) };

    fn fmt<W: fmt::Write>(&self, f: &mut fmt::Formatter<W>) -> fmt::Result {
        match self {
            Place::At(number) => write!(f, "{number}"),
            Place::Byte { block, byte } => write!(f, "{block} {byte}"),
        }
    }
}

impl fmt::Display for Fault {
    ghost output = { λ fault. Some (refused_text fault) };

    fn fmt<W: fmt::Write>(&self, f: &mut fmt::Formatter<W>) -> fmt::Result {
        write!(
            f,
            "refused {} {} {}",
            self.refusal.number(),
            self.layer,
            self.place
        )
    }
}

// stays: no plainer: written by hand, since `thiserror` would promise no text
impl std::error::Error for Fault {}

impl fmt::Display for UnknownRefusal {
    ghost output = { λ unknown. Some (unknown_text unknown) };

    fn fmt<W: fmt::Write>(&self, f: &mut fmt::Formatter<W>) -> fmt::Result {
        write!(f, "no refusal has the number {}", self.0)
    }
}

impl std::error::Error for UnknownRefusal {}

#[cfg(test)]
mod tests;
