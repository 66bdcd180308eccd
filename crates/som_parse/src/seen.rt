//! The tokens of a text as grammars see them.

ghost use Rattle.som_lex.specs.Spans.{IsSpelled, bytes_of as bytes_in};
ghost use Rattle.som_parse.specs.Seen.{is_left_out as is_ignored_of, places_from, seen_from, text_at, token_of as token_from};
ghost use Rattle.som_parse.specs.Tokens.{word};
ghost use Rattle.std.specs.Prelude.{◌≡◌, ◌-◌, length, slice_index_or, [], ◌∷◌, ◌++◌, All, IfOk, OnOk};

use crate::words::{key_of, sign_of};
use crate::{Cursor, Token};
use som_ast::Word;
use som_lex::{LexToken, TokenKind, Tokens, is_ignored, number_value};
use som_model::{NoMemory, Text};
use std::alloc::Global;

/// The tokens of a text without ignored directives, and their places in the list of all tokens.
#[derive(Drop)]
pub struct Seen {
    pub tokens: Vec<Token>,
    pub places: Vec<usize>,
}

impl Seen {
    /// The place of the token in hand in the list of all tokens, or the length of that list at the end.
    pub fn place_of(&self, tokens: &Tokens, left: &Cursor<'_>) -> usize
        ensures { result ≡ slice_index_or self.now.places.items (length self.now.tokens.items - length left.now.rest.now) (length tokens.now.list) }
    {
        let before = self.tokens.as_slice().len().saturating_sub(left.rest.len());
        match self.places.as_slice().get(before) {
            Some(place) => *place,
            None => tokens.list.len(),
        }
    }
}

fn bytes_of<'a>(source: &'a [u8], token: LexToken) -> &'a [u8]
    ensures { result.now ≡ bytes_in source.now token }
{
    let rest = &source[token.start.min(source.len())..];
    let len = token.end.saturating_sub(token.start);
    &rest[..len.min(rest.len())]
}

#[tactic(auto, unfolding(crate::specs::Seen::is_left_out))]
fn is_left_out(source: &[u8], token: LexToken) -> bool
    ensures { result ≡ is_ignored_of source.now token }
{
    token.kind == TokenKind::Directive && is_ignored(bytes_of(source, token))
}

#[tactic(auto, unfolding(crate::specs::Seen::token_of))]
fn token_of(source: &[u8], place: usize, token: LexToken) -> Token
    requires { IsSpelled source.now token }
    ensures { result ≡ token_from source.now place token }
{
    let bytes = bytes_of(source, token);
    match token.kind {
        TokenKind::Word => Token::Word(key_of(bytes), place),
        TokenKind::Number => Token::Number(number_value(bytes)),
        TokenKind::Literal => Token::Literal(place),
        TokenKind::Sign => Token::Mark(sign_of(bytes)),
        TokenKind::Directive => Token::Directive,
    }
}

// Adds a token, unless it is an ignored directive.
fn note(seen: &mut Seen, source: &[u8], place: usize, token: LexToken) -> Result<(), NoMemory>
    requires { IsSpelled source.now token }
    ensures tokens { OnOk result (seen.new.tokens.items ≡ seen.old.tokens.items ++ seen_from source.now place (token ∷ [])) }
    ensures places { OnOk result (seen.new.places.items ≡ seen.old.places.items ++ places_from source.now place (token ∷ [])) }
{
    if is_left_out(source, token) {
        return Ok(());
    }
    seen.tokens.push(token_of(source, place, token))?;
    seen.places.push(place)?;
    Ok(())
}

/// The tokens as grammars see them.
#[tactic(auto, using(crate::proofs::Places::seen_onwards, crate::proofs::Places::places_onwards))]
pub fn see(alloc: Global, tokens: &Tokens) -> Result<Seen, NoMemory>
    requires { All (IsSpelled tokens.now.source) tokens.now.list }
    ensures tokens { IfOk result (λ s. s.tokens.items ≡ seen_from tokens.now.source 0 tokens.now.list) }
    ensures places { IfOk result (λ s. s.places.items ≡ places_from tokens.now.source 0 tokens.now.list) }
{
    let source = tokens.source.as_slice();
    let mut seen = Seen {
        tokens: Vec::new(alloc),
        places: Vec::new(alloc),
    };
    for (place, token) in tokens.list.as_slice().iter().enumerate() {
        note(&mut seen, source, place, *token)?;
    }
    Ok(seen)
}

/// The word at a place, with a copy of its text.
pub fn word_at(alloc: Global, tokens: &Tokens, place: usize) -> Result<Word, NoMemory>
    ensures { IfOk result (λ w. w ≡ word (text_at tokens.now) place) }
{
    let bytes = match tokens.list.as_slice().get(place) {
        Some(token) => bytes_of(tokens.source.as_slice(), *token),
        None => &[],
    };
    Ok(Word {
        text: Text::from_slice(alloc, bytes)?,
        token: place,
    })
}
