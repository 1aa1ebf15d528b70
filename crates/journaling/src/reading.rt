//! The call that a line says.
ghost use Rattle.std.specs.Prelude.{◌≡◌, ℕ, ◌+◌, ◌*◌, [], ◌∷◌, IfOk, replicate, ◌≢◌};
ghost use Rattle.journaling.specs.Calls.{ReadsCall, ReadsNumber, ReadsSides, SaysCall, SideDigits};

use linker::memory_for;
use replay::Call;
use std::alloc::{AllocError, Global};

// The longest line that is read.
const LINE_LIMIT: usize = 128;

// The number of a claim.
#[tactic(auto, using(crate::proofs::Texts::no_zero))]
fn read_number(bytes: &[u8]) -> Option<u32>
    ensures { ReadsNumber bytes.now result }
{
    text::number(bytes).filter(|number| *number != 0)
}

// The sides that these digits say.
#[tactic(auto, using(crate::proofs::Texts::reads_sides))]
fn read_sides(heap: Global, digits: &[u8]) -> Result<Option<Vec<u8>>, AllocError>
    ensures { IfOk result (λ o. ReadsSides digits.now o) }
{
    text::digits(heap, digits)
}

// The digits after the letter of a one-way linking: none at all, or some after one space.
#[tactic(auto, using(crate::proofs::Texts::after_one, crate::proofs::Texts::cut_sides))]
fn side_digits(rest: &[u8]) -> Option<&[u8]>
    ensures { SideDigits rest.now result }
{
    match rest {
        [] => Some(rest),
        [b' '] => None,
        [b' ', digits @ ..] => Some(digits),
        _ => None,
    }
}

// The output of a linking of so many doors, and how many numbers of working memory it asks for.
fn room(heap: Global, doors: u8) -> Result<(Vec<u16>, usize), AllocError>
    ensures { IfOk result (λ r. (r.0.items ≡ replicate doors 0) × (r.1 ≡ 3 * doors * doors + 8 * doors)) }
{
    let output = vec![in heap; 0; usize::from(doors)]?;
    Ok((output, memory_for(doors)))
}

// The one-way linking that a line says whose letter stands before `rest`.
fn read_one_way(heap: Global, doors: u8, rest: &[u8]) -> Result<Option<Call>, AllocError>
    ensures { IfOk result (λ o. SaysCall doors (111 ∷ rest.now) o) }
{
    let Some(digits) = side_digits(rest) else {
        return Ok(None);
    };
    let Some(sides) = read_sides(heap, digits)? else {
        return Ok(None);
    };
    let (output, memory) = room(heap, doors)?;
    Ok(Some(Call::OneWay {
        sides,
        output,
        memory,
    }))
}

// The linking of all doors.
fn link_call(heap: Global, doors: u8) -> Result<Option<Call>, AllocError>
    ensures { IfOk result (λ o. SaysCall doors (108 ∷ []) o) }
{
    let (output, memory) = room(heap, doors)?;
    Ok(Some(Call::Link { output, memory }))
}

// The edit that a line says: its letter, one space and the rest.
fn read_edit(letter: u8, rest: &[u8]) -> Option<Call>
    ensures { (n : ℕ) → letter ≢ 111 → SaysCall n (letter ∷ 32 ∷ rest.now) result }
{
    match letter {
        b'c' => Some(Call::Claim(text::byte(rest)?)),
        b'r' => Some(Call::Release(read_number(rest)?)),
        b's' => Some(Call::Strike(read_number(rest)?)),
        b'u' => Some(Call::Free(text::byte(rest)?)),
        b'x' => {
            let (first, second) = text::pair(rest)?;
            Some(Call::Forbid(first, second))
        }
        b'f' => {
            let (first, second) = text::pair(rest)?;
            Some(Call::Favour(first, second))
        }
        _ => None,
    }
}

// The call that a line of a journal over so many doors says, if it says one.
pub(crate) fn read_call(heap: Global, doors: u8, line: &[u8]) -> Result<Option<Call>, AllocError>
    ensures { IfOk result (λ o. ReadsCall doors line.now o) }
{
    if line.len() > LINE_LIMIT {
        return Ok(None);
    }
    match line {
        [b'o', rest @ ..] => read_one_way(heap, doors, rest),
        [b'l'] => link_call(heap, doors),
        [letter, b' ', rest @ ..] => Ok(read_edit(*letter, rest)),
        _ => Ok(None),
    }
}
