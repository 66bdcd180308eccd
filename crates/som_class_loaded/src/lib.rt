//! What there is of the classes that are made, and how one more is made: rows of methods and of variables, the index of
//! names, and hooks.
#![tactic(auto)]

mod laws;
mod made;
mod names;
mod rows;

pub use laws::by_name_law;
pub use made::MadeClasses;
