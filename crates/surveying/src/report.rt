//! What is said of a survey and its level file.
ghost use Rattle.std.specs.Prelude.{◌≡◌, ◌++◌, IfOk, OnOk, string_bytes};
ghost use Rattle.surveying.specs.Summary.{Summary, blocks_of, check_lines};

use crate::comparing::{listed, reads_back};
use codec::{BLOCK, block_check};
use sources::Source;
use std::alloc::{AllocError, Global};
use std::fmt::Write;

// Adds the checks of a file's blocks, a line each.
fn add_checks(text: &mut String, file: &[u8]) -> Result<(), AllocError>
    ensures { OnOk result (string_bytes text.new ≡ string_bytes text.old ++ check_lines file.now (blocks_of file.now)) }
{
    for (block, bytes) in file.chunks_exact(BLOCK).enumerate() {
        writeln!(text, "check {block} {}", block_check(bytes))?;
    }
    Ok(())
}

/// The summary of a source's lists and the file that was read back: how many doors, listed doors and blocks there are, the check of
/// each block, and whether the same lists were read back.
pub fn summary<S: Source>(heap: Global, source: &S, file: &[u8]) -> Result<String, AllocError>
    ensures { IfOk result (λ text. Summary (S.Source.lists source.now) file.now (string_bytes text)) }
{
    let mut text = format!(in heap;
        "doors {}\nlisted {}\nblocks {}\n",
        source.count(),
        listed(source),
        file.len() / BLOCK
    )?;
    add_checks(&mut text, file)?;
    if reads_back(source, file) {
        text.push_str("read back: same lists\n")?;
    } else {
        text.push_str("read back: other lists\n")?;
    }
    Ok(text)
}
