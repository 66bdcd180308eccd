//! The bodies of the kernel's methods that only ask: of classes, names, methods and versions.
#![tactic(auto)]

mod arguments;
mod asked;
mod finding;
mod kinds;
mod questions;
mod selves;

pub use asked::ask;
pub use finding::find_class;
pub use kinds::{Asking, KernelBody, kernel_body};
