//! Towers: a library, libraries above it, and a client on top become one linked kernel, or what is first in the way is answered.
#![tactic(auto)]

mod building;
mod laws;
mod laying;
mod library;

pub use laws::standing_law;
pub use laying::{lay_tower, standing_levels};
