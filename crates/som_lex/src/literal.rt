//! The lexer of text literals, from the opening quote to the closing one.

ghost use Rattle.std.specs.Prelude.{◌≡◌, ◌≤◌, ◌<◌, ◌+◌, ◌^◌, false, length, if◌then◌else◌, IfOk};
ghost use Rattle.som_lex.specs.Alphabet as spec;
ghost use Rattle.som_lex.specs.Lexeme.{literal_at};

use crate::alphabet::{is_escape, is_plain};
use crate::lexeme::Lexeme;
use crate::{LexFault, TokenKind};
use som_model::MAX_TEXT;

// Whether the byte may stand in a text literal, after a backslash or without one.
fn may_stand(after: bool, byte: u8) -> bool
    ensures { result ≡ (if after then spec.is_escape byte else spec.is_plain byte) }
{
    if after {
        is_escape(byte)
    } else {
        is_plain(byte)
    }
}

// A text literal: the bytes after its opening quote, which stands at `start`.
#[tactic(auto, unfolding(crate::specs::Lexeme::literal_at))]
pub(crate) fn literal(start: usize, bytes: &[u8]) -> Result<Lexeme, LexFault>
    requires { start + 1 + length bytes.now < 2 ^ 64 }
    ensures value { result ≡ literal_at start false 0 (start + 1) bytes.now }
    ensures within { IfOk result (λ x. (start < x.end) × (x.end ≤ start + 1 + length bytes.now)) }
{
    let mut rest = bytes;
    let mut at = start + 1;
    let mut count = 0usize;
    let mut after = false;
    while let [byte, others @ ..] = rest {
        if !after && *byte == b'"' {
            return Ok(Lexeme::token(TokenKind::Literal, at + 1));
        }
        if *byte == b'\n' {
            return Err(LexFault::OpenText { offset: start });
        }
        if !after && *byte == b'\\' {
            after = true;
        } else {
            if !may_stand(after, *byte) {
                return Err(LexFault::BadByte { offset: at });
            }
            if count >= MAX_TEXT as usize {
                return Err(LexFault::TextTooLong { offset: start });
            }
            count += 1;
            after = false;
        }
        at += 1;
        rest = others;
    }
    Err(LexFault::OpenText { offset: start })
}
