//! The command `generate`: two releases of so many classes and a client are made, and the client runs on the second.
#![tactic(auto)]

mod generating;
mod printing;
mod refusing;
mod running;

pub use generating::generate;
