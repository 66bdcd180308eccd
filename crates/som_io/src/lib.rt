//! The outside, as a program sees it: a store of files, and a sink that text is written to.
//! Both are traits. `MemStore` and `MemSink` meet them in memory, and can be set to fail.
#![tactic(auto)]

mod counter;
mod leaves;
mod line;
mod mem_sink;
mod mem_store;
mod sink;
mod store;

pub use leaves::Leaves;
pub use line::{Sending, send};
pub use mem_sink::MemSink;
pub use mem_store::MemStore;
pub use sink::{Sent, Sink};
pub use store::{Got, Put, Store};
