//! Whether classes keep the rules that look into no block, and the first that they break.
#![tactic(auto)]

mod bodies;
mod classes;
mod faces;
mod inherited;
mod introduced;
mod known;
mod members;
mod metaclasses;
mod moved;
mod overrides;
mod rules;
mod selects;
mod shared;
mod signatures;

pub use faces::faces_ok;
pub use introduced::names_introduced_once;
pub use members::variables_differ;
pub use moved::entries_moved_up;
pub use rules::{ancestors_where_rules_hold, rules_hold};
pub use signatures::types_known;
