//! The faces that interface files stand for, or the first rule that they break.
#![tactic(auto)]

mod ancestry;
mod bases;
mod build;
mod inherited;
mod laws;
mod rules;

pub use build::{all_interfaces, build_faces};
pub use laws::{declarations_law, text_rules_law};
pub use som_sema_drafts::Refused;
