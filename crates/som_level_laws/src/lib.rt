//! When newer levels of libraries are compatible with older ones.
#![tactic(auto)]

mod laws;

pub use laws::{
    level_along_law, level_breach_law, level_stays_law, lower_levels_law, newest_levels_law,
    one_level_law,
};
