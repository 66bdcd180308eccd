//! Programs that stand above levels of libraries: the contracts of functions with no body, which proofs of other crates cite.
#![tactic(auto)]

mod counting;
mod laws;
mod standing;
mod towers;

pub use counting::{counts_law, parents_law};
pub use laws::{level_change_law, level_names_law, level_program_law};
pub use standing::{one_more_law, sound_program_law, tower_faces_law};
pub use towers::tower_loads_law;
