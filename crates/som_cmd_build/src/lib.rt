//! The commands that compile texts to an image and put it: `library` and `client`.
#![tactic(auto)]

mod client;
mod library;
mod putting;

pub use client::build_client;
pub use library::build_library;
pub use putting::{FailedPut, PutEnd, put, tell_put};
