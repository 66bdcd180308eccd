//! Where bytes stop being those of an image.
#![tactic(auto)]

mod laws;

pub use laws::{client_fault_law, level_fault_law, library_fault_law};
