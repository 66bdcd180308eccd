//! What keys and names of blocks, faces, parts and selects are numbered to in an image.
//!
//! A `Directory` has the classes in the order of their numbers; by it keys, methods and types (`specs/Numbering.antt`), blocks
//! (`specs/NumberedBlocks.antt`) and whole classes (`specs/NumberedClasses.antt`) are numbered. Each is there: who calls has to
//! know it, and that what conforms and is within the limits is ready for this is a law (`numbered_laws.rt`).
#![tactic(auto)]

mod found;
mod lookup;
mod numbered_block;
mod numbered_classes;
mod numbered_expr;
mod numbered_face;
mod numbered_laws;
mod numbered_part;
mod numbered_selects;

pub use lookup::{class_names, number_kind, number_method, number_of};
pub use numbered_block::number_block;
pub use numbered_classes::{number_faces, number_parts};
pub use numbered_face::number_face;
pub use numbered_laws::{ready_blocks_turn_back, typed_blocks_are_ready};
pub use numbered_selects::number_selects;
