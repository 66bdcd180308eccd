//! Whether newer libraries, one above the other, are compatible with older ones, level by level.
#![tactic(auto)]

mod ancestors;
mod breach;
mod classes;
mod entries;
mod finding;
mod levels;
mod metaclasses;
mod methods;
mod numbers;
mod owners;
mod pair;
mod rows;
mod same_levels;
mod tables;
mod versions;

pub use breach::{LevelBreach, LevelFault};
pub use classes::{PlacedClass, all_classes};
pub use finding::sorted_places;
pub use levels::{compatible_levels, level_of};
pub use owners::{Slot, entries_at, entry_owners, slot_at};
