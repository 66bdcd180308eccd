//! Lines and words of a text of questions.

use crate::unasked::Unasked;

fn cut_at(text: &[u8], end: u8) -> (&[u8], &[u8]) {
    let place = text
        .iter()
        .position(|byte| *byte == end)
        .unwrap_or(text.len());
    text.split_at(place)
}

/// The first line of a text, and the lines after it.
pub fn first_line(text: &[u8]) -> (&[u8], &[u8]) {
    cut_at(text, b'\n')
}

/// The first word of a line, and what comes after it.
pub fn first_word(line: &[u8]) -> (&[u8], &[u8]) {
    let (word, rest) = cut_at(line.trim_ascii_start(), b' ');
    (word, rest.trim_ascii_start())
}

/// A number in decimal digits, where a greater one than four bytes have counts as the greatest; or `Unasked::Line`.
pub fn number_of(word: &[u8]) -> Result<u32, Unasked> {
    if word.is_empty() {
        return Err(Unasked::Line);
    }
    let mut number = 0u32;
    for byte in word {
        let digit = match byte {
            b'0'..=b'9' => *byte - b'0',
            _ => return Err(Unasked::Line),
        };
        number = number.saturating_mul(10).saturating_add(u32::from(digit));
    }
    Ok(number)
}
