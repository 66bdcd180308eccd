//! The bodies that classes have, by numbers, and the rows that have for each method the body of the class that answers.
#![tactic(auto)]

mod adding;
mod bodies;
mod body;
mod replaced;

pub use bodies::Bodies;
pub use body::{BodyAt, Source};
