//! Rows of variables: the place of each variable in the objects of a class, and the types of all by their places.
#![tactic(auto)]

mod bases;
mod laws;
mod object_variables;
mod own;
mod places;
mod start;

pub use laws::apart_law;
pub use object_variables::ObjectVariables;
pub use places::Places;
