//! The command `run`: a client image on a library image.
#![tactic(auto)]

mod run;

pub use run::run_client;
pub use som_cmd_main::Trace;
