//! An interface alone: its draft is made of its text, and keeps the rules that ask no other class.
#![tactic(auto)]

mod double;
mod exports;
mod lookup;
mod making;
mod members;
mod modifiers;
mod single;
mod variables;

pub use making::drafts_of;
pub use members::{items_differ, names_differ};
pub use modifiers::modifiers_stand;
pub use single::{base_names, metaclass_names};
