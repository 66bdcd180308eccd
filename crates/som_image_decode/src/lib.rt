//! What the numbers in images stand for: classes, methods and types, and by a definition whole blocks.
//!
//! A `Directory` is made of the classes in the order of their numbers; by it keys, methods and types are named
//! (`specs/Naming.antt`). Which block one with numbers stands for is defined (`specs/NamedBlocks.antt`): `som_image_bodies` reads
//! blocks to it. Whole classes are named above too, in `som_image_classes`, and the crate `som_image_encode` goes back.
#![tactic(auto)]

mod directory;
mod laws;
mod named;

pub use directory::Directory;
pub use laws::{named_blocks_are_spelled, named_blocks_are_within};
pub use named::{key_of, name_kind};
