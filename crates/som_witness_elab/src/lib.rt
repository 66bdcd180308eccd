//! That the texts of the client that shows a breach conform, and stand for that client.
#![tactic(auto)]

mod laws;

pub use laws::{texts_conform_law, texts_program_law};
