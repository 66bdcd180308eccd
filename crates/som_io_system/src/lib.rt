//! The system's files as a store, and standard output as a sink.
#![tactic(auto)]

mod files;
mod standard_output;
#[cfg(test)]
mod tests;

pub use files::FileStore;
pub use standard_output::StandardOutput;
