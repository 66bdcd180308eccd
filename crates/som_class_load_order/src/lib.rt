//! The classes that are made for a run, by number, the metaclass of each, and the order in which they are made.
#![tactic(auto)]

mod choice;
mod closure;
mod laws;
mod making;
mod pass;
mod search;

pub use closure::Closure;
pub use laws::kernel_law;
pub use making::to_make;
