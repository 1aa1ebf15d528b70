//! A line on its way in, a byte at a time, in memory that does not grow.
ghost use Rattle.std.specs.Prelude.{◌≡◌, ℕ, List, [], Some, Option};
ghost use Rattle.std.specs.Option.{option_map};
ghost use Rattle.commands.specs.Buffers.{is_blank, Fed};

use arrayvec::ArrayVec;
use std::marker::Model;

// The longest line that is read.
const LINE_LIMIT: usize = 64;

// What ends a line.
const LINE_END: u8 = b'\n';

/// The bytes of a line so far; nothing where there were more than it can have.
#[derive(Drop)]
pub struct LineBuffer {
    bytes: Option<ArrayVec<u8, LINE_LIMIT>>,
}

// The line; nothing where it is too long.
impl Model for LineBuffer {
    ghost Value = { Option (List ℕ) };

    ghost view = { λ b. option_map (λ v. v.items) b.bytes };
}

impl LineBuffer {
    /// A line with no bytes yet.
    pub fn new() -> LineBuffer
        ensures { result ≡ Some [] }
    {
        LineBuffer {
            bytes: Some(ArrayVec::new()),
        }
    }

    /// Takes the next byte of the input. Says whether it ends the line; the line then stays as it is, and otherwise the byte is added.
    // stays: no plainer: a yes or no with no value beside it; the caller asks only whether the line ended
    #[tactic(auto, using(crate::proofs::Buffered::fed_more, crate::proofs::Buffered::fed_over, crate::proofs::Buffered::fed_long))]
    pub fn feed(&mut self, byte: u8) -> bool
        ensures { Fed self.old byte result self.new }
    {
        if byte == LINE_END {
            return true;
        }
        if let Some(bytes) = &mut self.bytes {
            if bytes.is_full() {
                self.bytes = None;
            } else {
                bytes.push(byte);
            }
        }
        false
    }

    /// Begins the next line.
    pub fn clear(&mut self)
        ensures { self.new ≡ Some [] }
    {
        self.bytes = Some(ArrayVec::new());
    }

    /// Did no byte come since the last line's end?
    pub fn is_empty(&self) -> bool
        ensures { result ≡ is_blank self.now }
    {
        self.bytes.as_ref().is_some_and(|bytes| bytes.is_empty())
    }

    /// The line; nothing where it is too long.
    pub fn line(&self) -> Option<&[u8]>
        ensures { option_map (λ x. x.now) result ≡ self.now }
    {
        self.bytes.as_ref().map(|bytes| bytes.as_slice())
    }
}
