//! `Lexeme`, what one step of the lexer answers, and the greatest number that a text may have.

ghost use Rattle.std.specs.Prelude.{◌≡◌};

use crate::TokenKind;

/// The greatest number that may be written, 2^31 - 1, which is the greatest long.
pub const MAX_NUMBER: u32 = 2_147_483_647;

/// What stands at a place: a token, or a blank or a comment, and the place after it.
#[derive(Clone, Copy)]
pub struct Lexeme {
    pub token: Option<TokenKind>,
    pub end: usize,
}

impl Lexeme {
    pub(crate) fn token(kind: TokenKind, end: usize) -> Lexeme
        ensures { result ≡ record { token = Some kind; end = end } }
    {
        Lexeme {
            token: Some(kind),
            end,
        }
    }

    pub(crate) fn gap(end: usize) -> Lexeme
        ensures { result ≡ record { token = None; end = end } }
    {
        Lexeme { token: None, end }
    }
}
