//! Which interface and which member is told where texts break a rule.
#![tactic(auto)]

mod laws;

pub use laws::first_told_law;
