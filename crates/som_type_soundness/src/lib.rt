//! That no value of a run is ill typed, and nothing that it asks for is missing.
//! Laws are the contracts of functions with no body. Proofs of other crates cite them, and no code calls them.
#![tactic(auto)]

mod laws;

pub use laws::{preservation_law, typed_law, typed_program_law};
