//! `LexFault`, the errors of the lexer, each with the byte at which it stands.

ghost use Rattle.std.specs.Prelude.{◌≡◌};
ghost use Rattle.som_lex.specs.declared.fault.LexFault.TheVariants as faults;

use som_model::NoMemory;
use thiserror::Error;

/// Why a text has no tokens: its first fault, and the byte at which it stands.
#[derive(Clone, Copy, Debug, PartialEq, Eq, Error)]
pub enum LexFault {
    #[error("no token can have the byte at {offset}")]
    BadByte { offset: usize },
    #[error("the text literal at byte {offset} isn't closed on its line")]
    OpenText { offset: usize },
    #[error("the comment at byte {offset} isn't closed")]
    OpenComment { offset: usize },
    #[error("the number at byte {offset} is too large")]
    NumberTooLarge { offset: usize },
    #[error("the word at byte {offset} is too long")]
    NameTooLong { offset: usize },
    #[error("the text literal at byte {offset} is too long")]
    TextTooLong { offset: usize },
    #[error("out of memory")]
    NoMemory,
}

impl From<NoMemory> for LexFault {
    ghost from_gives = { λ _ e. e ≡ faults.NoMemory };

    fn from(_e: NoMemory) -> LexFault {
        LexFault::NoMemory
    }
}
