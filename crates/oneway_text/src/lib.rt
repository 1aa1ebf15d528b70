//! What the program for one-way linking prints.

#![tactic(auto)]

ghost use Rattle.std.specs.Prelude.{◌≡◌, IfOk, string_bytes};
ghost use Rattle.oneway_text.specs.Printed.{linked_text, OneWayText, FileText};

use faults::Refusal;
use linker::one_way_link;
use sources::Source;
use std::alloc::{AllocError, Global};
use text::{Linking, digits, refused_file_line, refused_line};

// A linking in which every door stands, and the number of its proposals.
fn linked_text(heap: Global, partners: &[u16], proposals: u16) -> Result<String, AllocError>
    ensures { IfOk result (λ s. string_bytes s ≡ linked_text partners.now proposals) }
{
    let standing = vec![in heap; true; partners.len()]?;
    let linking = Linking {
        begun: false,
        standing: &standing,
        partners,
    };
    format!(in heap; "{linking}\n{proposals} proposals")
}

/// What is printed for a source and a line with a digit for each door, 0 for an exit and 1 for an entrance.
/// Another number of characters is refused first, then a character that is no digit, then a digit above 1.
pub fn one_way_lines<S: Source>(heap: Global, source: &S, line: &[u8]) -> Result<String, AllocError>
    ensures { IfOk result (λ s. OneWayText (S.Source.lists source.now) line.now (string_bytes s)) }
{
    let n = usize::from(source.count());
    if line.len() != n {
        return refused_line(heap, Refusal::WrongSize);
    }
    let Some(sides) = digits(heap, line)? else {
        return refused_line(heap, Refusal::UnreadLine);
    };
    let mut partners = vec![in heap; 0u16; n]?;
    let mut memory = vec![in heap; 0u16; 3 * n * n + 8 * n]?;
    match one_way_link(source, &sides, &mut partners, &mut memory) {
        Ok(proposals) => linked_text(heap, &partners, proposals),
        Err(fault) => refused_line(heap, fault.refusal),
    }
}

/// What is printed for the bytes of a level file and a line of sides.
pub fn one_way_file(heap: Global, file: &[u8], line: &[u8]) -> Result<String, AllocError>
    ensures { IfOk result (λ s. FileText file.now line.now (string_bytes s)) }
{
    match codec::read(file) {
        Ok(table) => one_way_lines(heap, &table, line),
        Err(fault) => refused_file_line(heap, fault),
    }
}
