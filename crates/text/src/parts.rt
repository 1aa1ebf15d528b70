//! The parts of a line, and the lines of a text.
ghost use Rattle.text.specs.Reads.{SplitsAt};
ghost use Rattle.text.specs.Texts.{FirstLine};

use memchr::memchr;

/// What stands before and after the first byte `mark`; `None` where there is none.
pub fn split_once(bytes: &[u8], mark: u8) -> Option<(&[u8], &[u8])>
    ensures { SplitsAt mark bytes.now result }
{
    let end = memchr(mark, bytes)?;
    Some((&bytes[..end], &bytes[end + 1..]))
}

/// The first line of a text without its line feed, and what follows it; `None` where the text is empty.
/// The last line may lack its end.
pub fn first_line(text: &[u8]) -> Option<(&[u8], &[u8])>
    ensures { FirstLine text.now result }
{
    if text.is_empty() {
        return None;
    }
    Some(split_once(text, b'\n').unwrap_or((text, &[])))
}
