//! The classes that names stand for.
#![tactic(auto)]

mod scope;
mod tables;

pub use scope::{Scope, key_of, keys_of, module_of, result_of, scope_of, type_of};
pub use tables::{add, face_names, interface_names, table_of};
