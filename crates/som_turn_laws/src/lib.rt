//! What clients print that take turns, a unit a turn, and laws of it.
#![tactic(auto)]

mod clients;
mod turns;
mod worked;

pub use clients::{ended_law, meaning_law};
pub use turns::{alone_law, order_law, shown_law};
pub use worked::{breakers_law, printers_law};
