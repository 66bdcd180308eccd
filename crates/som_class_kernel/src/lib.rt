//! What a linked kernel holds: its classes by number, the main that they were linked with, and of the classes that are made their rows, names and hooks. A
//! class is made when it is first needed.
#![tactic(auto)]

mod body;
mod copies;
mod data;
mod entries;
mod laws;
mod linked;
mod made;
mod methods;
mod search;

pub use body::BodyNo;
pub use copies::{classes_of_pair, copy_classes, own_classes_of_pair};
pub use laws::names_law;
pub use linked::{Linked, lay};
