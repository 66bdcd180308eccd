//! Tokens with their kinds and places in the source, and the list of all tokens of a text.

ghost use Rattle.std.specs.Prelude.{◌≡◌, ◌<◌, length};
ghost use Rattle.std.specs.List.{slice_index_or};

use som_model::List;

#[derive(Clone, Copy, PartialEq, Eq)]
pub enum TokenKind {
    Word,
    Number,
    /// A text between quotes.
    Literal,
    Sign,
    Directive,
}

/// A token: the bytes of its source from `start` up to and without `end`.
#[derive(Clone, Copy, PartialEq, Eq)]
pub struct LexToken {
    pub kind: TokenKind,
    pub start: usize,
    pub end: usize,
}

/// The tokens of a text, in order, with the text.
#[derive(Drop)]
pub struct Tokens {
    pub source: List<u8>,
    pub list: List<LexToken>,
}

impl Tokens {
    ghost use Rattle.som_lex.specs.declared.token.LexToken.{LexToken as Token};
    ghost use Rattle.som_lex.specs.Spans as spec;
    ghost use Rattle.som_lex.specs.Spans.{AreTokens, bytes_of};

    /// The bytes of the token at a place of the list.
    pub fn text_of(&self, place: usize) -> &[u8]
        requires place { place < length self.now.list }
        requires tokens { AreTokens self.now }
        ensures { (default : Token) → result.now ≡ bytes_of self.now.source (slice_index_or self.now.list place default) }
    {
        let token = self.list.as_slice()[place];
        let (front, _) = self.source.as_slice().split_at(token.end);
        let (_, bytes) = front.split_at(token.start);
        bytes
    }

    /// The byte at which the token at a place of the list begins; behind the last token, the length of the text.
    pub fn offset_of(&self, place: usize) -> usize
        ensures { result ≡ spec.offset_of self.now place }
    {
        match self.list.as_slice().get(place) {
            Some(token) => token.start,
            None => self.source.len(),
        }
    }
}
