//! What a breach of compatibility says, and what a client program asks of a release.
#![tactic(auto)]

mod binding;
mod breaches;

pub use binding::own_binding_law;
pub use breaches::{breach_law, named_breach_law, signature_breach_law};
