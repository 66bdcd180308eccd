//! The command `tower check`: compares two libraries that stand above others.
#![tactic(auto)]

mod check;
mod compare;
mod laws;

pub use check::check_levels;
pub use laws::tower_check_law;
