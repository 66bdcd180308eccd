//! The classes of which the blocks of a run name proxies, so that a kernel can number these proxies before main begins.
#![tactic(auto)]

mod classes;
mod expressions;
mod laws;
mod statements;

pub use classes::{proxied, with_block, with_class};
pub use laws::proxied_law;
