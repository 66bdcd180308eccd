//! `SyntaxFault`, the errors of the parsers, each with the token at which it stands.

use thiserror::Error;

/// Why a text wasn't read: the place of the first token that doesn't fit, or want of memory.
#[derive(Clone, Copy, Debug, PartialEq, Eq, Error)]
pub enum SyntaxFault {
    #[error("no text goes on with token {token}")]
    Syntax { token: usize },
    #[error("token {token} is outside the profile")]
    NotInProfile { token: usize },
    #[error("the text nests too deep at token {token}")]
    Nesting { token: usize },
    #[error("out of memory")]
    NoMemory,
}
