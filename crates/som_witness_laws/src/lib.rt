//! That the texts of the client that shows a breach are compiled to that very client, and that linking it is refused.
#![tactic(auto)]

mod laws;

pub use laws::{few_law, recompiled_law, refused_run_law};
