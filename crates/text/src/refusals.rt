//! Refusals as lines.
ghost use Rattle.std.specs.Prelude.{◌≡◌, IfOk, Some, string_bytes};
ghost use Rattle.text.specs.Lines.{block_byte, refused_file_line, refused_line};

use faults::{Fault, Place, Refusal};
use std::alloc::{AllocError, Global};
use std::fmt;

/// The answer to a refused call: `no` and the refusal's number.
#[derive(Clone, Copy, PartialEq, Eq, Debug)]
pub struct RefusedCall(
    /// why the call was refused
    pub Refusal,
);

impl fmt::Display for RefusedCall {
    ghost output = { λ call. Some (refused_line call.0) };

    fn fmt<W: fmt::Write>(&self, f: &mut fmt::Formatter<W>) -> fmt::Result {
        write!(f, "no {}", self.0.number())
    }
}

/// The answer to a refused file: `file`, the number, the block and the byte; 0 and 0 where the place is one number.
#[derive(Clone, Copy, PartialEq, Eq, Debug)]
pub struct RefusedFile(
    /// what is wrong with the file, and where
    pub Fault,
);

impl fmt::Display for RefusedFile {
    ghost output = { λ file. Some (refused_file_line file.0) };

    fn fmt<W: fmt::Write>(&self, f: &mut fmt::Formatter<W>) -> fmt::Result {
        let (block, byte) = match self.0.place {
            Place::At(_) => (0, 0),
            Place::Byte { block, byte } => (block, byte),
        };
        write!(f, "file {} {block} {byte}", self.0.refusal.number())
    }
}

/// `no` and the refusal's number.
// stays: a public function that promised this text before its `Display` stood
pub fn refused_line(heap: Global, refusal: Refusal) -> Result<String, AllocError>
    ensures { IfOk result (λ s. string_bytes s ≡ refused_line refusal) }
{
    format!(in heap; "{}", RefusedCall(refusal))
}

/// `file`, the number, the block and the byte; 0 and 0 where the place is one number.
// stays: a public function that promised this text before its `Display` stood
pub fn refused_file_line(heap: Global, fault: Fault) -> Result<String, AllocError>
    ensures { IfOk result (λ s. string_bytes s ≡ refused_file_line fault) }
{
    format!(in heap; "{}", RefusedFile(fault))
}
