//! Numbers read from bytes: exactly the inverse of writing them.
ghost use Rattle.std.specs.Prelude.{◌^◌, IfOk};
ghost use Rattle.text.specs.Digits.{Negated, ReadsDigits, ValueBelow};
ghost use Rattle.text.specs.Reads.{ReadsBelow, ReadsPair, ReadsSigned16};

use crate::parts::split_once;
use std::alloc::{AllocError, Global};

// The number below 2^32 that these digits give, leading zeros or not; 0 where there are none.
fn digits_value(digits: &[u8]) -> Option<u32>
    ensures { ValueBelow (2 ^ 32) digits.now result }
{
    let mut value = 0u32;
    // stays: for `try_fold` the proof must name the fold that the closure's calls compute, and the call that broke off; the loop's one
    // invariant says both of the digits
    for digit in digits {
        if !digit.is_ascii_digit() {
            return None;
        }
        value = value
            .checked_mul(10)?
            .checked_add(u32::from(*digit - b'0'))?;
    }
    Some(value)
}

/// The number below 2^32 that is written so, without leading zeros.
pub fn number(bytes: &[u8]) -> Option<u32>
    ensures { ReadsBelow (2 ^ 32) bytes.now result }
{
    match bytes {
        [] => None,
        [b'0', _, ..] => None,
        digits => digits_value(digits),
    }
}

/// The number below 2^8 that is written so.
pub fn byte(bytes: &[u8]) -> Option<u8>
    ensures { ReadsBelow (2 ^ 8) bytes.now result }
{
    let value = number(bytes)?;
    u8::try_from(value).ok()
}

/// Two numbers below 2^8, with one space between them.
pub fn pair(bytes: &[u8]) -> Option<(u8, u8)>
    ensures { ReadsPair bytes.now result }
{
    let (first, second) = split_once(bytes, b' ')?;
    Some((byte(first)?, byte(second)?))
}

/// The numbers that single digits are; `None` where a byte is no digit.
pub fn digits(heap: Global, bytes: &[u8]) -> Result<Option<Vec<u8>>, AllocError>
    ensures { IfOk result (λ numbers. ReadsDigits bytes.now numbers) }
{
    if !bytes.iter().all(|byte| byte.is_ascii_digit()) {
        return Ok(None);
    }
    let numbers = bytes.iter().map(|byte| byte.saturating_sub(b'0'));
    Ok(Some(numbers.collect(heap)?))
}

// The number of this size below 0, where the type has it.
fn negative(size: u32) -> Option<i16>
    ensures { Negated size result }
{
    i16::try_from(-i64::from(size)).ok().filter(|n| *n < 0)
}

/// The signed 16-bit number that is written so; only one below 0 has a sign.
pub fn integer(bytes: &[u8]) -> Option<i16>
    ensures { ReadsSigned16 bytes.now result }
{
    match bytes {
        [b'-', digits @ ..] => negative(number(digits)?),
        _ => i16::try_from(number(bytes)?).ok(),
    }
}
