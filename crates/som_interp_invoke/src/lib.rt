//! Calls: the steps of a task that make a call, or invoke the next body of one, be it of a class or of the kernel.
#![tactic(auto)]

mod answering;
mod asking;
mod beginning;
mod begun;
mod call_step;
mod calling;
mod coding;
mod finding;
mod forwarding;
mod freeing;
mod invoking;
mod kernel;
mod making;
mod nothing;
mod plan;
mod planning;
mod preparing;
mod taking;
mod variables;

pub use beginning::begin;
pub use begun::{Begun, What};
pub use call_step::make_call;
pub use invoking::invoke;
pub use preparing::prepare;
pub use variables::get_or_set;
