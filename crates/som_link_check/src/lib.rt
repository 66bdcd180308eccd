//! Whether a client can be linked with a library, and what its acceptance gives.
#![tactic(auto)]

mod fault;
mod pair;

pub use fault::LinkFault;
pub use pair::look_at_pair;
