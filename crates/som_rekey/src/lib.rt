//! Copies of classes, bodies and keys under other modules: each named class gets the module that a change gives its name.
#![tactic(auto)]

mod classes;
mod keys;
mod modules;
mod same;
mod syntax;

pub use classes::{rekey_class, rekey_entry, rekey_face, rekey_metaclass};
pub use keys::{rekey_key, rekey_keys, rekey_method, rekey_type};
pub use modules::NewModules;
pub use same::is_new_face;
pub use syntax::{rekey_block, rekey_expr};
