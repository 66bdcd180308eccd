//! That texts say one program.
#![tactic(auto)]

mod laws;

pub use laws::{one_block_law, one_program_law};
