//! The command `witness`: compares two releases, and where the newer one is refused, tells and puts a client that shows why.
#![tactic(auto)]

mod lines;
mod putting;
mod releases;
mod told;
mod witness;

pub use releases::Releases;
pub use told::Told;
pub use witness::witness_images;
