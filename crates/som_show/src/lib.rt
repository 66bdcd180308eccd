//! The lines that show a release or a client program: its classes, and the release order of each.
#![tactic(auto)]

mod client;
mod count;
mod entry;
mod face;
mod name;
mod release;

pub use client::shown_client;
pub use name::add_number;
pub use release::shown;
