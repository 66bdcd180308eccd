//! The finished declarations of a module's drafts: what was moved up, overridden and selected gets the class that
//! introduces it.
#![tactic(auto)]

mod declared;
mod faces;
mod known;
mod selected;

pub use declared::{declarations, introducer_place};
pub use faces::ranking_above;
pub use known::known_classes;
pub use selected::selects;
