//! The law of how many classes a run may come to make.
#![tactic(auto)]

mod laws;

pub use laws::class_count_law;
