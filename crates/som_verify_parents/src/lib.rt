//! Whether parents stand before their classes, and the ancestors of classes whose parents do.
#![tactic(auto)]

mod ancestry;
mod bare;
mod declared;
mod double;
mod parents;
mod standing;

pub use ancestry::ancestors;
pub use bare::bare_classes;
pub use declared::declared_ancestors;
pub use double::{add, first_double};
pub use parents::{parents_differ, parents_stand};
pub use standing::{declare, standing_ancestors};
