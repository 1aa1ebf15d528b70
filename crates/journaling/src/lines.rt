//! The calls that the lines of a journal make.
ghost use Rattle.std.specs.Prelude.{IfOk};
ghost use Rattle.journaling.specs.Calls.{LineCall, LineCalls};
ghost use Rattle.text.specs.Texts.{lines};

use crate::reading::read_call;
use replay::Call;
use std::alloc::{AllocError, Global};

// The number of a claim that is never granted.
// stays: no plainer: a line that is no call needs a place in the run, and a call with a claim never granted is answered `NotShown`; an `Option` of a call would need a second list
const NO_CLAIM: u32 = 0;

// The call of a line. One that is not read shows a claim that is never granted, so that no call is made.
fn line_call(heap: Global, doors: u8, line: &[u8]) -> Result<Call, AllocError>
    ensures { IfOk result (λ c. LineCall doors line.now c) }
{
    Ok(read_call(heap, doors, line)?.unwrap_or(Call::Release(NO_CLAIM)))
}

// The calls of all lines, in their order.
#[tactic(auto, using(crate::proofs::Cuts::read_none, crate::proofs::Cuts::read_more, crate::proofs::Cuts::read_all))]
pub(crate) fn read_calls(heap: Global, doors: u8, input: &[u8]) -> Result<Vec<Call>, AllocError>
    ensures { IfOk result (λ calls. LineCalls doors (lines input.now) calls.items) }
{
    let mut calls = Vec::new(heap);
    let mut rest = input;
    // stays: no iterator of lines has a contract that says which lines there are
    while let Some((line, after)) = text::first_line(rest) {
        let call = line_call(heap, doors, line)?;
        calls.push(call)?;
        rest = after;
    }
    Ok(calls)
}
