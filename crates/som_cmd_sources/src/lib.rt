//! Texts that a command gets, and what is told of them.
#![tactic(auto)]

mod client_parts;
mod text_refusals;
mod texts;

pub use client_parts::{ClientParts, fetch_parts};
pub use text_refusals::{refuse_limit, refuse_texts, stop_of};
pub use texts::fetch_texts;
