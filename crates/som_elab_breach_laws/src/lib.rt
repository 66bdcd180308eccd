//! The law of what is told of texts whose bodies break a rule.
#![tactic(auto)]

mod laws;

pub use laws::first_body_told_law;
