//! The methods that names mean, class by class.
#![tactic(auto)]

mod index;
mod named;

pub use index::NameIndex;
