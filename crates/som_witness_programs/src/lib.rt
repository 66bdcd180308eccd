//! For a newer interface that is refused, makes the client that shows why, and the texts that say it.
#![tactic(auto)]

mod answering;
mod body_text;
mod choosing;
mod class;
mod differing;
mod expressions;
mod interface_text;
mod keys;
mod lists;
mod naming;
mod saying;
mod showing;
mod words;

pub use answering::witness;
