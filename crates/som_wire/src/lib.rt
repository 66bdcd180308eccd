//! Blocks, parts and selects of images, with numbers for classes and methods: how each is spelled, what is read from left to
//! right, and how it is written.
//!
//! `specs/Reading.antt` says what is read at a place where so many levels are left, and which fault is the first on the way from
//! left to right: a statement of a body has level 1, and what stands in a statement or an expression one more. The laws say that
//! what was written is read so. Selects are read here; blocks and parts of classes are read with names, by the crates above
//! (`som_image_bodies`, `som_image_classes`), which tell the same faults. The clauses of a reader say three things: what it
//! `found` stands there in its one spelling and fits; what stands there and fits is what `only` can be read; and the fault is
//! `exact`ly the first one. A writer appends the one spelling of `som_image_fields`. After want of memory `out` is as it was.
#![tactic(auto)]

mod block;
mod laws;
mod part;
mod selects;
mod write_expr;
mod write_stmt;

pub use block::write_block;
pub use laws::{no_spelling_begins_another, what_fits_can_be_written, what_was_written_is_read};
pub use part::write_part;
pub use selects::{read_selects, write_selects};
// The fields of images and the types over them, so that callers need one crate of the two.
pub use som_image_fields::{
    EncodeFault, ImageFault, Ranges, Read, WireBlock, WireBody, WireEntry, WireExpr, WireFace,
    WireMethod, WireOverride, WirePart, WireSelect, WireSelects, WireSig, WireStmt, WireType,
    WireVariable, read_entry, read_face, read_method, read_sig, read_text, read_type, read_u8,
    read_u16, read_u32, write_entry, write_face, write_method, write_sig, write_text, write_type,
    write_u8, write_u16, write_u32,
};
