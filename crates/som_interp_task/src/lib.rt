//! A task: it starts where main begins, goes on by units, and ends as main does.
#![tactic(auto)]

mod advanced;
mod advances;
mod advancing;
mod laws;
mod outcome;
mod running;
mod starting;
mod task;

pub use advanced::Advanced;
pub use advances::Advances;
pub use advancing::advance;
pub use laws::standing_law;
pub use outcome::Outcome;
pub use running::run;
pub use starting::start;
pub use task::Task;
