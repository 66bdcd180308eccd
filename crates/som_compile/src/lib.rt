//! The compiler: from texts to an image, or what is first wrong with them. Its lemmas say that what texts come to is within
//! the limits of images.
#![tactic(auto)]

mod compile;
mod laws;

pub use compile::{compile_client, compile_library};
pub use laws::{client_law, compiling_law};
pub use som_sources::{CompileFault, ReadingFault, Source, TextFault};
