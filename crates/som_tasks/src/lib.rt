//! Several clients take turns over one object store, a unit a turn.
#![tactic(auto)]

mod all_turns;
mod client;
mod laws;
mod one_turn;
mod run;
mod starting;
mod turned;

pub use laws::{alone_law, beside_law};
pub use run::run_turns;
pub use turned::Turned;
