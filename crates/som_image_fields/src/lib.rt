//! The fields of images, from single numbers to faces: the one spelling of each, its decoder and its encoder; and the types
//! of what images hold beside fields: blocks, bodies, parts and selects, with their spelling.
//!
//! A decoder is given all bytes and a place. Its clauses say three things: what it `found` stands there in its one spelling and
//! fits its ranges; what stands there and fits is what `only` can be read; and the fault is `exact`ly the first one, which
//! `specs/Reading.antt` finds on the way from left to right. An encoder appends the one spelling of `specs/Spelling.antt`.
//! After want of memory `out` is as it was.
#![tactic(auto)]

mod entry;
mod face;
mod fault;
mod kind;
mod laws;
mod many;
mod method;
mod number;
mod read;
mod selects;
mod sig;
mod syntax;
mod text;

pub use entry::{WireEntry, read_entry, write_entry};
pub use face::{WireFace, read_face, write_face};
pub use fault::{EncodeFault, ImageFault};
pub use kind::{WireType, read_type, write_type};
pub use laws::no_spelling_begins_another;
pub use many::read_many;
pub use method::{Ranges, WireMethod, read_method, write_method};
pub use number::{read_u8, read_u16, read_u32, write_u8, write_u16, write_u32};
pub use read::Read;
pub use selects::{WireSelect, WireSelects};
pub use sig::{WireSig, read_sig, write_sig};
pub use syntax::{WireBlock, WireBody, WireExpr, WireOverride, WirePart, WireStmt, WireVariable};
pub use text::{read_text, write_text};
