//! The instructions of a body that make no call and change no object.
#![tactic(auto)]

mod jumps;
mod locals;
mod operands;
mod operators;
mod tests;
mod values;

pub use jumps::{jump, unless};
pub use locals::{cut, get, set};
pub use operands::{pop, push};
pub use operators::{binary, call_host, unary};
pub use tests::{cast, isa};
pub use values::{drop_top, push_constant, push_manager, push_me};
