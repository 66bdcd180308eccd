//! The flat interface of levels of libraries, and towers of accepted levels: laws of what can break there, and of what is kept.
#![tactic(auto)]

mod laws;
mod towers;

pub use laws::{
    flat_breach_law, flat_kept_law, flat_program_law, made_levels_law, made_over_law,
    owners_kept_law,
};
pub use towers::{level_above_law, newest_program_law, newest_tower_law};
