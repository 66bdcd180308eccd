//! Questions that a linked kernel is asked, a line each, and what it answers.
#![tactic(auto)]

mod bodies;
mod classes;
mod lines;
mod making;
mod methods;
mod questions;
mod telling;
mod unasked;
mod variables;

pub use lines::{first_line, first_word, number_of};
pub use questions::ask_all;
pub use telling::{told, told_number};
pub use unasked::Unasked;
