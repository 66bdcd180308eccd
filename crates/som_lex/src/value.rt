//! The values of tokens: the number that digits spell, and the bytes of a literal after its escapes.

ghost use Rattle.std.specs.Prelude.{◌≡◌, ◌≤◌, ◌++◌, false, IfOk, OnOk};
ghost use Rattle.som_lex.specs.Alphabet.{escaped as escaped_of};
ghost use Rattle.som_lex.specs.Values.{number_of, text_of, inside_of};

use crate::MAX_NUMBER;
use crate::word::capped_value;
use som_model::{NoMemory, Text};
use std::alloc::Global;

/// The value of the digits of a number.
pub fn number_value(digits: &[u8]) -> u32
    requires { number_of digits.now ≤ MAX_NUMBER }
    ensures { result ≡ number_of digits.now }
{
    capped_value(digits) as u32
}

/// The text of a literal after its escapes.
pub fn literal_text(alloc: Global, literal: &[u8]) -> Result<Text, NoMemory>
    ensures { IfOk result (λ text. text ≡ text_of literal.now) }
{
    match literal {
        [] => Ok(Text::from_vec(Vec::new(alloc))),
        [_, inside @ ..] => Ok(Text::from_vec(unescaped(alloc, inside)?)),
    }
}

// What stands up to the closing quote, after its escapes.
#[tactic(auto, unfolding(crate::specs::Values::inside_of))]
fn unescaped(alloc: Global, bytes: &[u8]) -> Result<Vec<u8>, NoMemory>
    ensures { IfOk result (λ text. text.items ≡ inside_of false bytes.now) }
{
    let mut text = Vec::new(alloc);
    let mut rest = bytes;
    let mut after = false;
    while let [byte, others @ ..] = rest {
        if after {
            text.push(escaped(*byte))?;
            after = false;
        } else if *byte == b'"' {
            return Ok(text);
        } else if *byte == b'\\' {
            after = true;
        } else {
            text.push(*byte)?;
        }
        rest = others;
    }
    Ok(text)
}

fn escaped(byte: u8) -> u8
    ensures { result ≡ escaped_of byte }
{
    match byte {
        b'n' => b'\n',
        b't' => b'\t',
        _ => byte,
    }
}
