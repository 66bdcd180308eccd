//! The one interface of levels of libraries, against which what stands above them is compiled, and whether it breaks a rule.
#![tactic(auto)]

mod breach;
mod entries;
mod faces;
mod flatten;
mod introduced;
mod laws;
mod modules;
mod names;
mod rules;
mod sizes;

pub use breach::FlatFault;
pub use flatten::flat_interface;
pub use laws::leveled_breach_law;
pub use rules::flat_rules;
pub use sizes::sizes_of;
