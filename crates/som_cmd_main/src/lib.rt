//! The main of a linked kernel is run, with the calls shown that a trace asks for.
#![tactic(auto)]

mod filtered;
mod main_run;
mod trace;

pub use main_run::{run_main, run_unseen};
pub use trace::Trace;
