//! Flat code: the instructions of a body, laid out from its block.
#![tactic(auto)]

mod code;
mod emit;
mod expressions;
mod instruction;
mod layout;
mod statements;

pub use code::Code;
pub use instruction::{Constant, Instruction};
pub use layout::{lay_out, lay_out_for};
