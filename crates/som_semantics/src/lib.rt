//! What a program means: values, the heap, fuel, calls and hooks, the events of a run and the text that is printed. The
//! definitions stand in `specs/`; the laws on them are the contracts of functions with no body, which proofs of other crates cite.
#![tactic(auto)]

mod laws;

pub use laws::{exact_fuel_law, kernel_bodies_law, loop_law, more_fuel_law, objects_law, told_law};
