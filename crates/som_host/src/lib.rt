//! The procedures that a program may ask of its host, as closures that are handed in.
#![tactic(auto)]

mod entry;
mod table;

pub use entry::HostEntry;
pub use table::{HostTable, host_entry, host_table};
