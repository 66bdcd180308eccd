//! Laws of the definitions of `som_model`: ancestors, implementations, names, keys, release orders, and the hierarchies that
//! classes make with the kernel's. The contracts of functions with no body, which proofs of other crates cite.
#![tactic(auto)]

mod hierarchy_laws;
mod theorems;

pub use hierarchy_laws::{
    ancestry_law, class_law, hierarchy_law, keeping_law, metaclass_law, metaclass_parents_law,
    metaclass_rank_law, owner_law,
};
pub use theorems::{
    ancestors_law, ancestors_once_law, ancestors_step_law, answer_step_law, byname_law,
    descends_step_law, effective_order_law, implementation_law, implementation_leftmost_law,
    implementation_step_law, key_law,
};
