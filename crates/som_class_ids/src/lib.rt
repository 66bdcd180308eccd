//! Numbers for the classes of a run: the declared ones by their places, and after them those that are made of others.
#![tactic(auto)]

mod declared;
mod keyed;
mod keys;
mod made;
mod made_table;
mod named;
mod names;
mod numbers;
mod position;

pub use keyed::Keyed;
pub use numbers::Numbers;
pub use position::Kind;
