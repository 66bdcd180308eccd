//! The tokens that are left, and the steps on them.

ghost use Rattle.som_parse.specs.Answer.{Answers};
ghost use Rattle.som_parse.specs.Readers as spec;
ghost use Rattle.som_parse.specs.Tokens as tokens;
ghost use Rattle.std.specs.Prelude.{◌≡◌, drop};

use crate::{Key, Sign, Token};
use som_model::NoMemory;
use std::alloc::{AllocError, AllocFailed};

/// Why a reader stopped. The cursor is then at the token that didn't fit.
#[derive(Clone, Copy, PartialEq, Eq)]
pub enum Stop {
    Memory,
    Syntax,
    Nesting,
}

impl From<NoMemory> for Stop {
    ghost use Rattle.som_parse.specs.declared.cursor.Stop.TheVariants.{Memory};

    ghost from_gives = { λ _ f. f ≡ Memory };

    fn from(_error: NoMemory) -> Stop {
        Stop::Memory
    }
}

/// What a turn of a loop leaves: the value so far, or that of the whole.
#[derive(Drop)]
pub enum Turn<A, B> {
    More(A),
    Done(B),
}

/// A parser's place in a text: the tokens that are left, which it lends.
#[derive(Drop)]
pub struct Cursor<'a> {
    pub rest: &'a [Token],
}

impl<'a> Cursor<'a> {
    /// The token in hand, and None at the end of the text.
    pub fn peek(&self) -> Option<Token>
        ensures { result ≡ tokens.head self.now.rest.now }
    {
        match self.rest {
            [] => None,
            [first, ..] => Some(*first),
        }
    }

    /// Passes the token in hand, if there is one.
    pub fn skip(&mut self)
        ensures { self.new.rest.now ≡ drop 1 self.old.rest.now }
    {
        match self.rest {
            [] => {}
            [_, others @ ..] => self.rest = others,
        }
    }

    #[tactic(auto, unfolding(crate::specs::Tokens::same_sign))]
    pub fn sees(&self, sign: Sign) -> bool
        ensures { result ≡ tokens.is_sign sign (tokens.head self.now.rest.now) }
    {
        match self.peek() {
            Some(Token::Mark(other)) => other == sign,
            _ => false,
        }
    }

    #[tactic(auto, unfolding(crate::specs::Tokens::same_key))]
    pub fn sees_word(&self, key: Key) -> bool
        ensures { result ≡ tokens.is_key key (tokens.head self.now.rest.now) }
    {
        match self.peek() {
            Some(Token::Word(other, _)) => other == key,
            _ => false,
        }
    }

    /// Takes the sign, which has to stand here.
    #[tactic(auto, unfolding(crate::specs::Readers::expect))]
    pub fn expect(&mut self, sign: Sign) -> Result<(), Stop>
        ensures { Answers (spec.expect sign self.old.rest.now) result self.new.rest.now }
    {
        if !self.sees(sign) {
            return Err(Stop::Syntax);
        }
        self.skip();
        Ok(())
    }

    /// Takes the word, which has to stand here.
    #[tactic(auto, unfolding(crate::specs::Readers::keyword))]
    pub fn keyword(&mut self, key: Key) -> Result<(), Stop>
        ensures { Answers (spec.keyword key self.old.rest.now) result self.new.rest.now }
    {
        if !self.sees_word(key) {
            return Err(Stop::Syntax);
        }
        self.skip();
        Ok(())
    }

    /// Takes a number and answers its value, or stops with the token still in hand.
    #[tactic(auto, unfolding(crate::specs::Readers::number))]
    pub fn number(&mut self) -> Result<u32, Stop>
        ensures { Answers (spec.number self.old.rest.now) result self.new.rest.now }
    {
        match self.peek() {
            Some(Token::Number(value)) => {
                self.skip();
                Ok(value)
            }
            _ => Err(Stop::Syntax),
        }
    }

    /// Ok at the end of the text alone; it takes no token.
    #[tactic(auto, unfolding(crate::specs::Readers::end))]
    pub fn end(&self) -> Result<(), Stop>
        ensures { Answers (spec.end self.now.rest.now) result self.now.rest.now }
    {
        match self.peek() {
            None => Ok(()),
            Some(_) => Err(Stop::Syntax),
        }
    }
}
