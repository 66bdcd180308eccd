//! A task that goes on by units, and a run at once or by single units; how far main has come.
#![tactic(auto)]

mod ending;
mod going;
mod not_taken;
mod units;

pub use ending::{Ending, word_of};
pub use going::go_on;
pub use not_taken::NotTaken;
pub use units::{run_at_once, run_by_units};
