//! Laws of typing, of rules and of loading under other modules: the contracts of functions with no body, which proofs of other crates cite.
#![tactic(auto)]

mod classes;
mod loading;
mod rules;
mod typing;

pub use classes::{named_classes_law, rekeyed_typed_law};
pub use loading::{loaded_names_law, rekeyed_compiled_law, rekeyed_loads_law};
pub use rules::rekeyed_rules_law;
pub use typing::{rekeyed_block_law, rekeyed_expression_law};
