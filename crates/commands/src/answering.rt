//! What a line is answered with.
ghost use Rattle.std.specs.Prelude.{◌≡◌, IfOk, string_bytes};
ghost use Rattle.std.specs.Option.{option_map};
ghost use Rattle.level.specs.View.{view};
ghost use Rattle.commands.specs.Replies.{reply_text, standing, LinkLine, after, Says, Replies, AnswersLine};

use crate::reading::{Command, read_command};
use crate::replies::Reply;
use faults::Refusal;
use level::{Level, strike_once};
use linker::{link, memory_for};
use sources::Source;
use std::alloc::{AllocError, Global};

// For each door whether it stands.
fn standing_doors(heap: Global, level: &Level) -> Result<Vec<bool>, AllocError>
    ensures { IfOk result (λ v. v.items ≡ standing (view level.now)) }
{
    (0..level.count())
        .map(|door| !level.is_struck(door))
        .collect(heap)
}

// The linking of the level as it stands.
fn link_reply(heap: Global, level: &Level) -> Result<Reply, AllocError>
    ensures { IfOk result (λ reply. LinkLine (view level.now) (reply_text reply)) }
{
    let n = usize::from(level.count());
    let standing = standing_doors(heap, level)?;
    let mut partners = vec![in heap; 0u16; n]?;
    let mut memory = vec![in heap; 0u16; memory_for(level.count())]?;
    match link(level, &mut partners, &mut memory) {
        Ok(()) => Ok(Reply::Linked { standing, partners }),
        Err(fault) => Ok(Reply::Refused(fault.refusal)),
    }
}

// Does what a command says.
fn perform(heap: Global, level: &mut Level, command: Command) -> Result<Reply, AllocError>
    ensures level { view level.new ≡ after (view level.old) command }
    ensures says { IfOk result (λ reply. Says (view level.old) command (reply_text reply)) }
{
    match command {
        Command::Strike(door) => Ok(strike_once(level, door).into()),
        Command::Forbid(a, b) => Ok(level.forbid(a, b).into()),
        Command::Favour(a, b) => Ok(level.favour(a, b).into()),
        Command::Link => link_reply(heap, level),
    }
}

/// Does what a line says, or a line that was too long to be read, and gives the reply.
pub fn reply(heap: Global, level: &mut Level, line: Option<&[u8]>) -> Result<Reply, AllocError>
    ensures { Replies (view level.old) (option_map (λ x. x.now) line.entry) (view level.new) result }
{
    let Some(command) = line.and_then(read_command) else {
        return Ok(Reply::Refused(Refusal::UnreadLine));
    };
    perform(heap, level, command)
}

/// Answers one line, or a line that was too long to be read: does what it says, and gives the line to print.
// stays: a public function that promised this text before its `Display` stood
pub fn answer(heap: Global, level: &mut Level, line: Option<&[u8]>) -> Result<String, AllocError>
    ensures { AnswersLine (view level.old) (option_map (λ x. x.now) line.entry) (view level.new) result }
{
    let reply = reply(heap, level, line)?;
    format!(in heap; "{reply}")
}
