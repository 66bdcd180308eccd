//! The top call: what the program does with words, a store of files and a sink.
#![tactic(auto)]

mod laws;
mod top;
mod tower_words;
mod words;

pub use laws::{answer_law, chain_law, count_law, fuel_law, witness_chain_law, witness_texts_law};
pub use som_cmd_steps::fault_law;
pub use top::run_som;
