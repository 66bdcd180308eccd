//! The state of a running task: frames, bodies, objects and codes, and what they stand for in the meaning; and the trait
//! by which a task asks a linked kernel.
#![tactic(auto)]

mod body;
mod call;
mod frames;
mod held_body;
mod laws;
mod runtime;
mod sizes;
mod task;
mod test_laws;

pub use body::{Body, Zero};
pub use call::{Call, Left, Stage};
pub use frames::{Frames, Now, Waiting};
pub use held_body::{BodyView, Held};
pub use laws::{frames_law, heap_law, serials_law, stages_law, statics_law, task_law};
pub use runtime::Runtime;
pub use task::Task;
pub use test_laws::tests_law;
