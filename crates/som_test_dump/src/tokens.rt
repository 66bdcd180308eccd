//! Tokens, by their places and by their bytes.

ghost use Rattle.som_lex.specs.Spans.{AreTokens};

use crate::lines::Lines;
use som_lex::{TokenKind, Tokens};
use som_model::NoMemory;

fn letter(kind: TokenKind) -> &'static str {
    match kind {
        TokenKind::Word => "W",
        TokenKind::Number => "N",
        TokenKind::Literal => "L",
        TokenKind::Sign => "S",
        TokenKind::Directive => "D",
    }
}

impl Lines {
    /// Adds a line of tokens, each by its kind, its start and its end, if there are any.
    pub(crate) fn add_tokens(&mut self, tokens: &Tokens) -> Result<(), NoMemory> {
        let mut between = "";
        for token in tokens.list.as_slice() {
            self.add(between)?;
            self.add(letter(token.kind))?;
            self.add_number(token.start)?;
            self.add("-")?;
            self.add_number(token.end)?;
            between = " ";
        }
        if between.is_empty() {
            return Ok(());
        }
        self.end()
    }

    /// Adds a line for each token, with its bytes.
    pub(crate) fn add_texts(&mut self, tokens: &Tokens) -> Result<(), NoMemory>
        requires { AreTokens tokens.now }
    {
        for place in 0..tokens.list.len() {
            self.add_bytes(tokens.text_of(place))?;
            self.end()?;
        }
        Ok(())
    }
}
