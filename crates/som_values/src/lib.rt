//! The values of a running program: what operators, tests and prints do with them.
#![tactic(auto)]

mod arithmetic;
mod classes;
mod copy;
mod equality;
mod objects;
mod operator;
mod operators;
mod printed;
mod procedures;
mod reference;
mod signature;
mod stopped;
mod tests;

pub use classes::Classes;
pub use copy::{add_zeros, copy_cell, zero};
pub use equality::same;
pub use objects::{class_of, is_live, live, receiver};
pub use operators::{binary, unary};
pub use printed::{add_line, add_text, text_of};
pub use procedures::host;
pub use reference::{Reference, refer, referred};
pub use signature::{serves, sig_fits};
pub use stopped::Stopped;
pub use tests::{all_fit, cast, fits, is_true, isa};
