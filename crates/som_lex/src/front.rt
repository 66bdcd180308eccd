//! One step of the lexer: the token, blank or comment at a place, chosen by its first bytes.

ghost use Rattle.std.specs.Prelude.{◌≡◌, ◌≤◌, ◌<◌, ◌+◌, ◌^◌, length, IfOk};
ghost use Rattle.som_lex.specs.Lexeme.{lexeme_at, sign_at};

use crate::alphabet::{is_blank, is_digit, is_letter, is_single, next_is, starts_double};
use crate::comment::{block_comment, line_comment_len};
use crate::lexeme::Lexeme;
use crate::line::line_len;
use crate::literal::literal;
use crate::word::{number, word};
use crate::{LexFault, TokenKind};

#[tactic(auto, unfolding(crate::specs::Lexeme::sign_at))]
fn sign(at: usize, first: u8, others: &[u8]) -> Result<Lexeme, LexFault>
    requires { at + 1 + length others.now < 2 ^ 64 }
    ensures value { result ≡ sign_at at first others.now }
    ensures within { IfOk result (λ x. (at < x.end) × (x.end ≤ at + 1 + length others.now)) }
{
    if starts_double(first, others) {
        Ok(Lexeme::token(TokenKind::Sign, at + 2))
    } else if is_single(first) {
        Ok(Lexeme::token(TokenKind::Sign, at + 1))
    } else {
        Err(LexFault::BadByte { offset: at })
    }
}

// What stands first; `fresh` says that only spaces and tabs stand before it on its line.
#[tactic(auto, unfolding(crate::specs::Lexeme::lexeme_at))]
pub(crate) fn front(fresh: bool, at: usize, bytes: &[u8]) -> Result<Lexeme, LexFault>
    requires { at + length bytes.now < 2 ^ 64 }
    ensures value { result ≡ lexeme_at fresh at bytes.now }
    ensures within { IfOk result (λ x. (at < x.end) × (x.end ≤ at + length bytes.now)) }
{
    let [first, others @ ..] = bytes else {
        return Err(LexFault::BadByte { offset: at });
    };
    if is_blank(*first) {
        Ok(Lexeme::gap(at + 1))
    } else if is_letter(*first) {
        word(at, bytes)
    } else if is_digit(*first) {
        number(at, bytes)
    } else if *first == b'"' {
        literal(at, others)
    } else if *first == b'/' && next_is(b'/', others) {
        Ok(Lexeme::gap(at + line_comment_len(bytes)))
    } else if *first == b'/' && next_is(b'*', others) {
        match others {
            [] => Err(LexFault::BadByte { offset: at }),
            [_, inside @ ..] => block_comment(at, inside),
        }
    } else if fresh && *first == b'#' {
        Ok(Lexeme::token(TokenKind::Directive, at + line_len(bytes)))
    } else {
        sign(at, *first, others)
    }
}
