//! The command `tower run`: a client of a tower on the libraries below it.
#![tactic(auto)]

mod checking;
mod laws;
mod laying;
mod run;
mod tower;

pub use laws::{one_level_law, tower_end_law, tower_newest_law};
pub use laying::link_tower;
pub use run::run_tower;
pub use tower::Tower;
