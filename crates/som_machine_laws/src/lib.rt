//! Laws of the machine of frames: it means what the meaning means, which classes a task needs, that among classes that can
//! be loaded no test fails and all that code names is there, and how many steps are counted where nothing searches for a name.
//! The contracts of functions with no body, which proofs of other crates cite.
#![tactic(auto)]

mod direct_laws;
mod frame_laws;
mod name_laws;
mod need_laws;
mod test_laws;

pub use direct_laws::{blocks_law, counts_law, frames_law, hooks_law, runs_law};
pub use frame_laws::{meaning_law, stands_law, step_law, told_law};
pub use name_laws::{
    codes_law, held_law, kernel_calls_law, names_law, proxies_law, signatures_law, variables_law,
};
pub use need_laws::needs_law;
pub use test_laws::{closed_law, loaded_law, tests_law};
