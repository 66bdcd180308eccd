//! Bodies of images, read straight to blocks with names: no tree with numbers is made.
//!
//! A reader is given all bytes, a place, and the directory that tells what the numbers stand for. It answers the tree
//! with numbers that stands there by the definitions of `som_wire`, with the names that `som_image_decode` defines for it, and the
//! same first fault.
#![tactic(auto)]

mod block;
mod call;
mod expr;
mod named;
mod operand;
mod pair;
mod stmt;

pub use block::read_block;
