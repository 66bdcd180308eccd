//! A kernel: unlinked at first, and then linked, with the classes that it was linked with and its main. What is asked of a linked one, by number, by name and
//! as a running program asks it.
#![tactic(auto)]

mod asked;
mod data;
mod kernel;
mod laws;
mod link;
mod methods;
mod queries;
mod runtime;
mod search;
mod zeros;

pub use kernel::{Kernel, Stage, Unlinked};
pub use laws::made_law;
pub use som_class_ids::Keyed;
pub use som_class_kernel::{BodyNo, Linked};
pub use som_interp_state::{BodyView, Held};
pub use som_link_check::LinkFault;
pub use som_trace::KeyView;
