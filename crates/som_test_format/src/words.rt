//! Words and numbers at the front of a text.

ghost use Rattle.std.specs.Prelude.{◌≡◌, ◌+◌, ◌≤◌, length};

use crate::wrong::Wrong;
use som_model::{List, NoMemory, Text};
use std::alloc::Global;

fn is_blank(byte: u8) -> bool {
    matches!(byte, b' ' | b'\n')
}

/// The text up to the first blank, and what comes from there on.
pub fn until_blank(text: &[u8]) -> (&[u8], &[u8])
    ensures { length result.0.now + length result.1.now ≡ length text.now }
{
    let end = text
        .iter()
        .position(|byte| is_blank(*byte))
        .unwrap_or(text.len());
    text.split_at(end)
}

/// The letters in front of a text, and what comes after them.
pub fn until_no_letter(text: &[u8]) -> (&[u8], &[u8])
    ensures { length result.0.now + length result.1.now ≡ length text.now }
{
    let end = text
        .iter()
        .position(|byte| !byte.is_ascii_alphabetic())
        .unwrap_or(text.len());
    text.split_at(end)
}

/// The first word of a text, and what comes after it.
pub fn first_word(text: &[u8]) -> (&[u8], &[u8]) {
    let (word, rest) = until_blank(text.trim_ascii_start());
    (word, rest.trim_ascii_start())
}

/// The words of a text.
pub fn words_in(alloc: Global, text: &[u8]) -> Result<Vec<&[u8]>, NoMemory> {
    let mut words = Vec::new(alloc);
    for word in text.split(|byte| is_blank(*byte)) {
        if !word.is_empty() {
            words.push(word)?;
        }
    }
    Ok(words)
}

/// A number in decimal digits; none where there is another byte or no digit, or where it is no u64.
pub fn number_of(text: &[u8]) -> Option<u64> {
    if text.is_empty() {
        return None;
    }
    let mut number = 0u64;
    for byte in text {
        let digit = digit_of(*byte, 10)?;
        number = number.checked_mul(10)?.checked_add(u64::from(digit))?;
    }
    Some(number)
}

/// A number in decimal digits, or in hexadecimal ones after `0x`.
pub fn any_number_of(text: &[u8]) -> Option<u64> {
    let Some(digits) = text.strip_prefix(b"0x") else {
        return number_of(text);
    };
    if digits.is_empty() {
        return None;
    }
    let mut number = 0u64;
    for byte in digits {
        let digit = digit_of(*byte, 16)?;
        number = number.checked_mul(16)?.checked_add(u64::from(digit))?;
    }
    Some(number)
}

/// The byte of two hexadecimal digits.
pub fn byte_of(high: u8, low: u8) -> Option<u8> {
    let high = digit_of(high, 16)?;
    let low = digit_of(low, 16)?;
    high.checked_mul(16)?.checked_add(low)
}

// A digit below a base of at most 16.
fn digit_of(byte: u8, base: u8) -> Option<u8> {
    let digit = match byte {
        b'0'..=b'9' => byte - b'0',
        b'a'..=b'f' => byte - b'a' + 10,
        b'A'..=b'F' => byte - b'A' + 10,
        _ => return None,
    };
    if digit < base { Some(digit) } else { None }
}

/// Adds a number in decimal digits.
pub fn push_number(alloc: Global, out: &mut Vec<u8>, number: u64) -> Result<(), Wrong> {
    let digits = format!(in alloc; "{number}")?;
    out.extend_from_slice(digits.as_bytes())?;
    Ok(())
}
