//! The command `tasks`: clients of one library take turns over one store of objects.
#![tactic(auto)]

mod checking;
mod ends;
mod fitting;
mod giving;
mod group;
mod laws;
mod limits;
mod linking;
mod pattern;
mod tasks;

pub use group::Group;
pub use laws::alone_law;
pub use limits::{MAX_CLIENTS, MAX_PATTERN, MAX_ROUNDS};
pub use tasks::run_tasks;
