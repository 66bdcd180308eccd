//! The command `tower make`: compiles texts to a library above others, or to a client of such, and puts its tower image.
#![tactic(auto)]

mod base;
mod laws;
mod making;
mod parts;

pub use base::TowerBase;
pub use laws::made_level_law;
pub use making::build_level;
pub use parts::TowerParts;
