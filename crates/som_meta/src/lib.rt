//! Classes by their numbers, and the choice of a metaclass among them.
#![tactic(auto)]

mod ancestry;
mod constraints;
mod lowest;
mod plan;

pub use ancestry::Ancestry;
pub use plan::{MetaPlan, metaclass_of};
