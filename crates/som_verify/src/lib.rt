//! Whether a release or a client program keeps the rules, and the first that it breaks.
#![tactic(auto)]

mod laws;
mod program;
mod release;

pub use laws::{base_law, client_law, program_law, release_law, rules_law};
pub use program::{program_ok, program_rules};
pub use release::release_ok;
pub use som_verify_classes::{Broken, VerifyFault};
