//! Flat programs of levels by levels, as code: which module a flat name gets, the interfaces of the levels below, and a level's own classes.
#![tactic(auto)]

mod interfaces;
mod modules;
mod own;
mod places;
mod same;

pub use interfaces::levels_below;
pub use modules::LevelModules;
pub use own::{main_by_level, note_own};
pub use same::are_levels_below;
