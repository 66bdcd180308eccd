//! Bytes put together from named fields, as images have them.

ghost use Rattle.std.specs.Prelude.{◌<◌, ◌≤◌, IfOk, length};

use crate::files::Files;
use crate::words::{any_number_of, byte_of, number_of, until_blank};
use crate::wrong::Wrong;
use std::alloc::Global;

const TYPES: [&[u8]; 5] = [b":void", b":long", b":boolean", b":string", b":class"];

const ENTRIES: [&[u8]; 3] = [b"introduced", b"namelookup", b"moved"];

const BODIES: [&[u8]; 3] = [b"user", b"get", b"set"];

const UNARY: [&[u8]; 4] = [b"minus", b"not", b"length", b"textof"];

const BINARY: [&[u8]; 14] = [
    b"+", b"-", b"*", b"/", b"%", b"==", b"!=", b"<", b"<=", b">", b">=", b"and", b"or", b"&",
];
// From 1 on.
const STATEMENTS: [&[u8]; 10] = [
    b"var",
    b"setlocal",
    b"setvariable",
    b"if",
    b"while",
    b"return",
    b"returnvalue",
    b"print",
    b"free",
    b"call",
];
// From 0x20 on.
const EXPRESSIONS: [&[u8]; 21] = [
    b"long",
    b"text",
    b"boolean",
    b"nil",
    b"local",
    b"self",
    b"variable",
    b"unary",
    b"binary",
    b"new",
    b"class",
    b"manager",
    b"as",
    b"isa",
    b"proxy",
    b"offset",
    b"lookup",
    b"dispatch",
    b"parent",
    b"parents",
    b"host",
];

/// Puts bytes together from fields.
#[derive(Clone, Copy)]
pub struct Fields<'f> {
    pub alloc: Global,
    pub files: &'f Files,
}

impl Fields<'_> {
    /// The bytes of the fields of a text.
    pub fn bytes(&self, text: &[u8]) -> Result<Vec<u8>, Wrong> {
        let mut out = Vec::new(self.alloc);
        let mut rest = text.trim_ascii();
        while !rest.is_empty() {
            rest = self.field(rest, &mut out)?.trim_ascii();
        }
        Ok(out)
    }

    // Adds the first field of a text, and answers what comes after it.
    fn field<'a>(&self, text: &'a [u8], out: &mut Vec<u8>) -> Result<&'a [u8], Wrong>
        ensures { IfOk result (λ after. length after.now < length text.now) }
    {
        match text {
            [b'#', comment @ ..] => Ok(after_line(comment)),
            [b'"', after @ ..] => quoted(after, out),
            [b't', b':', b'"', after @ ..] => {
                let mut bytes = Vec::new(self.alloc);
                let after = quoted(after, &mut bytes)?;
                push_text(bytes.as_slice(), out)?;
                Ok(after)
            }
            _ => {
                let (word, after) = until_blank(text);
                if word.is_empty() {
                    return Err(Wrong::Unclear);
                }
                self.word(word, out)?;
                Ok(after)
            }
        }
    }

    // Adds the bytes of a field without quotes. `==` is the name of a byte, and no file.
    fn word(&self, word: &[u8], out: &mut Vec<u8>) -> Result<(), Wrong> {
        match word {
            [b't', b':', bytes @ ..] => push_text(bytes, out),
            [b'=', name @ ..] if code_of(word).is_none() => {
                let bytes = self.files.get(name).ok_or(Wrong::Unclear)?;
                out.extend_from_slice(bytes.as_slice())?;
                Ok(())
            }
            [b'u', b'1', b'6', b':', number @ ..] => push_u16(number, out),
            [b'u', b'3', b'2', b':', number @ ..] => push_u32(number, out),
            [b'i', b'3', b'2', b':', number @ ..] => push_i32(number, out),
            _ => push_byte(word, out),
        }
    }
}

// Adds the byte of a name or of a number.
fn push_byte(word: &[u8], out: &mut Vec<u8>) -> Result<(), Wrong> {
    let byte = match code_of(word) {
        Some(code) => code,
        None => byte_number(word).ok_or(Wrong::Unclear)?,
    };
    out.push(byte)?;
    Ok(())
}

fn byte_number(word: &[u8]) -> Option<u8> {
    u8::try_from(any_number_of(word)?).ok()
}

// The byte of a word.
fn code_of(word: &[u8]) -> Option<u8> {
    code_among(&TYPES, word, 0)
        .or(code_among(&ENTRIES, word, 0))
        .or(code_among(&BODIES, word, 0))
        .or(code_among(&UNARY, word, 0))
        .or(code_among(&BINARY, word, 0))
        .or(code_among(&STATEMENTS, word, 1))
        .or(code_among(&EXPRESSIONS, word, 0x20))
}

// The place of a word among others, counted from a first number.
fn code_among(words: &[&[u8]], word: &[u8], first: u8) -> Option<u8> {
    let mut code = first;
    for each in words {
        if *each == word {
            return Some(code);
        }
        code = code.saturating_add(1);
    }
    None
}

// What comes after the line that a text begins with.
fn after_line(text: &[u8]) -> &[u8]
    ensures { length result.now ≤ length text.now }
{
    match text.iter().position(|byte| *byte == b'\n') {
        Some(place) => &text[place..],
        None => &[],
    }
}

// Adds the bytes up to the closing quotes, and answers what comes after these.
fn quoted<'a>(text: &'a [u8], out: &mut Vec<u8>) -> Result<&'a [u8], Wrong>
    ensures { IfOk result (λ after. length after.now ≤ length text.now) }
{
    let mut rest = text;
    loop {
        let (byte, after) = match rest {
            [b'"', after @ ..] => return Ok(after),
            [b'\\', b'x', high, low, after @ ..] => {
                (byte_of(*high, *low).ok_or(Wrong::Unclear)?, after)
            }
            [b'\\', byte @ (b'"' | b'\\'), after @ ..] => (*byte, after),
            [b'\\', ..] | [] => return Err(Wrong::Unclear),
            [byte, after @ ..] => (*byte, after),
        };
        out.push(byte)?;
        rest = after;
    }
}

// Adds a text: its length in two bytes, and its bytes.
fn push_text(bytes: &[u8], out: &mut Vec<u8>) -> Result<(), Wrong> {
    let len = u16::try_from(bytes.len()).map_err(|_| Wrong::Unclear)?;
    out.extend_from_slice(&len.to_be_bytes())?;
    out.extend_from_slice(bytes)?;
    Ok(())
}

fn push_u16(digits: &[u8], out: &mut Vec<u8>) -> Result<(), Wrong> {
    let number = any_number_of(digits).ok_or(Wrong::Unclear)?;
    let number = u16::try_from(number).map_err(|_| Wrong::Unclear)?;
    out.extend_from_slice(&number.to_be_bytes())?;
    Ok(())
}

fn push_u32(digits: &[u8], out: &mut Vec<u8>) -> Result<(), Wrong> {
    let number = any_number_of(digits).ok_or(Wrong::Unclear)?;
    let number = u32::try_from(number).map_err(|_| Wrong::Unclear)?;
    out.extend_from_slice(&number.to_be_bytes())?;
    Ok(())
}

// A number with a sign, as two's complement.
fn push_i32(digits: &[u8], out: &mut Vec<u8>) -> Result<(), Wrong> {
    let number = match digits {
        [b'-', digits @ ..] => {
            let number = number_of(digits).ok_or(Wrong::Unclear)?;
            0x1_0000_0000u64
                .checked_sub(number)
                .filter(|all| *all >= 0x8000_0000)
                .ok_or(Wrong::Unclear)?
        }
        _ => any_number_of(digits)
            .filter(|all| *all < 0x8000_0000)
            .ok_or(Wrong::Unclear)?,
    };
    let number = u32::try_from(number & 0xffff_ffff).map_err(|_| Wrong::Unclear)?;
    out.extend_from_slice(&number.to_be_bytes())?;
    Ok(())
}
