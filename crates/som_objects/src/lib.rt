//! Objects by serial, kept under keys that are used again.
#![tactic(auto)]

mod cell;
mod object_ref;
mod shared_text;
mod slot;
mod store;

pub use cell::Cell;
pub use object_ref::{Gone, ObjRef};
pub use shared_text::SharedText;
pub use store::ObjectStore;
