//! The draft of an interface, which is the class that it declares as far as no other class is asked, and how a rule that a
//! draft breaks is reported.
#![tactic(auto)]

mod drafts;
mod given;
mod items;
mod names;
mod passes;
mod refusal;
mod tables;
mod types;

pub use drafts::Draft;
pub use given::{Mark, marks};
pub use items::{listed, parent_names};
pub use names::{introduced_names, prefixed};
pub use passes::{breach, each_draft};
pub use refusal::refused;
pub use tables::{overridden, replaced, selecting};
pub use types::Refused;
