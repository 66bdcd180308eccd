//! Values that come to what waits for them, and the instructions that call.
#![tactic(auto)]

mod called;
mod calls;
mod classes;
mod creating;
mod dispatching;
mod methods;
mod operands;
mod parents;
mod resumed;
mod tested;
mod values;

pub use called::call_by;
pub use calls::{named_call, offset_call, parent_call, wait};
pub use creating::new_call;
pub use dispatching::{dispatch_call, to_name};
pub use operands::take_call;
pub use parents::{next_call, parent_at, parents_call};
pub use resumed::resume;
pub use values::{to_body, to_freed, to_object};
