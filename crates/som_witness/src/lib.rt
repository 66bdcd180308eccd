//! For a newer interface that is refused, a client that shows why.
#![tactic(auto)]

mod refusals;
mod verdict;

pub use refusals::{refused_law, w_name_law, witness_law};
pub use verdict::{Texts, Verdict};
