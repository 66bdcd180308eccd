//! The lexer of words and decimal numbers, with their limits.

ghost use Rattle.std.specs.Prelude.{◌≡◌, ◌≤◌, ◌<◌, ◌+◌, ◌*◌, ◌^◌, ◌&&◌, ℕ, List, ◌∷◌, length, min, nat_le, true, IfOk};
ghost use Rattle.std.specs.List.{list_all, prefix_len};
ghost use Rattle.som_lex.specs.Alphabet as spec;
ghost use Rattle.som_lex.specs.Lexeme.{word_at, number_at};
ghost use Rattle.som_lex.specs.Spelling.{is_word as is_word_of};
ghost use Rattle.som_lex.specs.Values.{number_of};
ghost use Rattle.som_model.specs.declared.limits.TheConstants.{MAX_NAME};

use crate::alphabet::{is_digit, is_letter, is_word_byte};
use crate::lexeme::Lexeme;
use crate::{LexFault, MAX_NUMBER, TokenKind};
use som_model::MAX_NAME;

pub(crate) fn word_len(bytes: &[u8]) -> usize
    ensures value { result ≡ prefix_len spec.is_word_byte bytes.now }
    ensures within { result ≤ length bytes.now }
    ensures some { (b : ℕ) (bs : List ℕ) → bytes.now ≡ b ∷ bs → spec.is_letter b ≡ true → 0 < result }
{
    bytes.iter().take_while(|byte| is_word_byte(**byte)).count()
}

fn are_word_bytes(bytes: &[u8]) -> bool
    ensures { result ≡ list_all spec.is_word_byte bytes.now }
{
    word_len(bytes) == bytes.len()
}

fn is_word_text(first: u8, others: &[u8]) -> bool
    ensures { result ≡ spec.is_letter first && list_all spec.is_word_byte others.now }
{
    is_letter(first) && are_word_bytes(others)
}

fn is_short(bytes: &[u8]) -> bool
    ensures { result ≡ nat_le (length bytes.now) MAX_NAME }
{
    bytes.len() <= MAX_NAME as usize
}

/// Whether bytes are a word by themselves: a letter or `_`, then letters, digits and `_`, at most `MAX_NAME` bytes in all.
pub fn is_word(bytes: &[u8]) -> bool
    ensures { result ≡ is_word_of bytes.now }
{
    match bytes {
        [] => false,
        [first, others @ ..] => is_word_text(*first, others) && is_short(bytes),
    }
}

fn digits_len(bytes: &[u8]) -> usize
    ensures value { result ≡ prefix_len spec.is_digit bytes.now }
    ensures within { result ≤ length bytes.now }
    ensures some { (b : ℕ) (bs : List ℕ) → bytes.now ≡ b ∷ bs → spec.is_digit b ≡ true → 0 < result }
{
    bytes.iter().take_while(|byte| is_digit(**byte)).count()
}

// The value of digits, cut to one more than the greatest number.
pub(crate) fn capped_value(digits: &[u8]) -> u64
    ensures { result ≡ min (number_of digits.now) (MAX_NUMBER + 1) }
{
    digits.iter().fold(0u64, |value, digit| {
        value
            .saturating_mul(10)
            .saturating_add(u64::from(digit.saturating_sub(b'0')))
            .min(u64::from(MAX_NUMBER) + 1)
    })
}

#[tactic(auto, unfolding(crate::specs::Lexeme::word_at))]
pub(crate) fn word(at: usize, bytes: &[u8]) -> Result<Lexeme, LexFault>
    requires { at + length bytes.now < 2 ^ 64 }
    ensures value { result ≡ word_at at bytes.now }
    ensures within { IfOk result (λ x. x.end ≤ at + length bytes.now) }
    ensures some { (b : ℕ) (bs : List ℕ) → bytes.now ≡ b ∷ bs → spec.is_letter b ≡ true → IfOk result (λ x. at < x.end) }
{
    let len = word_len(bytes);
    if len <= MAX_NAME as usize {
        Ok(Lexeme::token(TokenKind::Word, at + len))
    } else {
        Err(LexFault::NameTooLong { offset: at })
    }
}

#[tactic(auto, unfolding(crate::specs::Lexeme::number_at))]
pub(crate) fn number(at: usize, bytes: &[u8]) -> Result<Lexeme, LexFault>
    requires { at + length bytes.now < 2 ^ 64 }
    ensures value { result ≡ number_at at bytes.now }
    ensures within { IfOk result (λ x. x.end ≤ at + length bytes.now) }
    ensures some { (b : ℕ) (bs : List ℕ) → bytes.now ≡ b ∷ bs → spec.is_digit b ≡ true → IfOk result (λ x. at < x.end) }
{
    match bytes {
        [] => Err(LexFault::BadByte { offset: at }),
        [b'0', others @ ..] => {
            if digits_len(others) > 0 {
                Err(LexFault::BadByte { offset: at + 1 })
            } else {
                Ok(Lexeme::token(TokenKind::Number, at + 1))
            }
        }
        _ => {
            let len = digits_len(bytes);
            if capped_value(&bytes[..len]) <= u64::from(MAX_NUMBER) {
                Ok(Lexeme::token(TokenKind::Number, at + len))
            } else {
                Err(LexFault::NumberTooLarge { offset: at })
            }
        }
    }
}
