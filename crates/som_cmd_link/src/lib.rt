//! What a run does before main: a client image and a library image are got, read and linked.
#![tactic(auto)]

mod fault;
mod link;
mod pair;

pub use link::link_images;
pub use pair::{Pair, fetch_pair};
