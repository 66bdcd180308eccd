//! The commands on towers of libraries: `tower make`, `tower check` and `tower run`.
#![tactic(auto)]

mod command;
mod towers;

pub use command::TowerCommand;
pub use towers::do_tower;
