//! The kernel's classes as values.
#![tactic(auto)]

mod faces;

pub use faces::kernel_faces;
