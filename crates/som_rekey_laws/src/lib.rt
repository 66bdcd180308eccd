//! Laws of classes under other modules: the contracts of functions with no body, which proofs of other crates cite.
#![tactic(auto)]

mod bodies;
mod kernel_names;
mod members;
mod metaclasses;
mod module_change;

pub use bodies::rekeyed_body_law;
pub use kernel_names::{ordered_names_law, rekeyed_kernel_law};
pub use members::{rekeyed_entry_law, rekeyed_owner_law};
pub use metaclasses::{rekeyed_facts_law, rekeyed_hooks_law, rekeyed_metaclass_law};
pub use module_change::{
    alike_hierarchies_law, rekeyed_ancestors_law, rekeyed_class_law, rekeyed_hierarchy_law,
    rekeyed_key_law,
};
