//! Reading with one token in hand: classified tokens, the cursor over them, and what every reader of a grammar obeys.
//!
//! `specs/Readers.antt` has the steps of which readers are made, `specs/Languages.antt` the repetitions that grammars name.
//! The laws that don't know which grammar they serve stand in `proofs`: `Laws` (what is read is in the language, and where reading
//! stops, what was read begins a text of it), `Steps`, `Repetition`, `Found` (what is in the language is read) and `Loops`.
#![tactic(auto)]

mod cursor;
mod fault;
mod seen;
mod token;
mod words;

pub use cursor::{Cursor, Stop, Turn};
pub use fault::SyntaxFault;
pub use seen::{Seen, see, word_at};
pub use token::{Key, Sign, Token};
pub use words::key_of;
