//! That the texts of the client which shows a breach are in the grammars, and of which trees.
#![tactic(auto)]

mod reading;

pub use reading::{few_parameters_law, texts_read_law};
