//! Texts cut into tokens, from left to right, each as long as possible, or refused at their first fault.
//!
//! `lex` answers the tokens with their source, and `one_answer_law` says that no other answer is right. What spells a token,
//! what stands first and which bytes make each fault is said in `specs/Spelling` and `specs/Front`; `specs/Lexeme` says it once
//! more by the first bytes, as the code reads them. Which directives are ignored is said here too; refusing the others is the
//! parsers' work.
#![tactic(auto)]

mod alphabet;
mod comment;
mod cut;
mod fault;
mod front;
mod ignored;
mod laws;
mod lexeme;
mod line;
mod literal;
mod token;
mod value;
mod word;

pub use cut::lex;
pub use fault::LexFault;
pub use ignored::is_ignored;
pub use laws::{literal_law, one_answer_law, word_law};
pub use lexeme::MAX_NUMBER;
pub use token::{LexToken, TokenKind, Tokens};
pub use value::{literal_text, number_value};
pub use word::is_word;
