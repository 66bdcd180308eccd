//! Tables of cases are tried: each command of a case runs over a store and a sink in memory, by a trait that says how, and what comes
//! is compared with what was written down.
#![tactic(auto)]

mod after;
mod commands;
mod outcome;
mod runner;
mod tables;

pub use commands::Commands;
pub use tables::run_tables;
