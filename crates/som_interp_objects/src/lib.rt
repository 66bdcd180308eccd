//! The objects of a running task: made, freed, and asked for their class and target; and the variables of objects and of
//! class objects: where they stand, what they hold, and how they change.
#![tactic(auto)]

mod classes;
mod freeing;
mod kernel;
mod making;
mod objects;
mod statics;
mod targets;
mod variables;
mod zeros;

pub use classes::class_of;
pub use freeing::free;
pub use making::make;
pub use objects::read_cell;
pub use targets::target;
pub use variables::{assign, read};
pub use zeros::{zero_cell, zero_cells, zero_of};
