//! The loop of a task: what one step is, and step after step until its main is over, it has a fault, or no unit is left.
#![tactic(auto)]

mod loop_laws;
mod move_laws;
mod moves;
mod running;
mod stop;

pub use loop_laws::{granted_law, start_law};
pub use move_laws::codes_law;
pub use moves::Moves;
pub use running::run_on;
pub use stop::Stop;
