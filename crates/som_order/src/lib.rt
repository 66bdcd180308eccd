//! Release orders: the order that a class gets, whether one order begins another, and the entry at a place.
#![tactic(auto)]

mod compare;
mod effective;
mod laws;
mod names;

pub use compare::{entry_at, is_prefix, name_of};
pub use effective::effective_order;
pub use laws::first_difference_law;
pub use names::{find_name, note_name};
