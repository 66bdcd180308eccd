//! Interface files: their trees, and the reader that answers the one tree of a text or the first token that doesn't fit.
//!
//! `specs/Grammar.antt` is the grammar, and `specs/Answer.antt` says what is answered. `specs/Reading.antt` has the readers that
//! the code follows; `proofs` shows that they read the grammar.
#![tactic(auto)]

mod export;
mod file;
mod item;
mod laws;
mod name;
mod parse;

pub use laws::{one_answer, one_tree, some_answer};
pub use name::is_name_text;
pub use parse::parse_idl;
pub use som_parse::SyntaxFault;
