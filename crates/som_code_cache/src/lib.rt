//! The codes of the bodies that a task ran, by their numbers.
#![tactic(auto)]

mod body_key;
mod codes;
mod laws;

pub use body_key::BodyKey;
pub use codes::Codes;
pub use laws::codes_law;
