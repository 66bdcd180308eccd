//! The tokens of methods, as the entries of classes name them; and which classes have bodies of their own for a method, or
//! select a parent's, by tokens.
#![tactic(auto)]

mod entries;
mod laws;
mod members;
mod owners;
mod tokens;

pub use laws::growing_law;
pub use members::Members;
pub use owners::Owners;
