//! Texts with names, and their trees or the first that can't be read.
#![tactic(auto)]

mod fault;
mod kind;
mod laws;
mod read;
mod source;
mod trees;

pub use fault::{CompileFault, ReadingFault, TextFault};
pub use kind::{SourceKind, kind_of};
pub use laws::reading_law;
pub use read::read_texts;
pub use source::Source;
pub use trees::{TextTree, Trees};
