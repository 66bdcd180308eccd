//! Whether the blocks of classes are well typed, and the first that is not.
#![tactic(auto)]

mod blocks;
mod expressions;
mod parts;
mod plain_statements;
mod statements;
mod typed_bodies;

pub use blocks::{Parts, blocks_typed, parts_of, program_typed};
pub use expressions::{expr_kind, value_kind};
