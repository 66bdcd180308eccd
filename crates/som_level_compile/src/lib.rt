//! The compiler of levels: from texts to the tower image of a library above others, or of a client of these, or what is
//! first wrong with the texts.
#![tactic(auto)]

mod building;
mod compile;
mod laws;

pub use compile::compile_level;
pub use laws::level_law;
