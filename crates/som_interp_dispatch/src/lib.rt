//! The tests of a call, and which of its bodies is next.
#![tactic(auto)]

mod choosing;
mod chosen;
mod classes;
mod entered;
mod hooks;
mod passed;
mod tests;
mod tokens;

pub use choosing::next;
pub use chosen::{Chosen, Role};
use classes::live_class;
pub use entered::enter;
pub use passed::{pass_named, pass_offset, pass_parent};
pub use tests::{can_run, has_method};
pub use tokens::{
    after_token, before_token, dispatch_token, free_token, init_token, new_token, uninit_token,
};
