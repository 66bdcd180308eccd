//! That what an image has room for is within the counts that linking asks for.
#![tactic(auto)]

mod laws;

pub use laws::counted_law;
