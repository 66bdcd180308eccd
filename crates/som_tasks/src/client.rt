//! A client that takes turns.

use som_exec::Task;
use som_model::Text;

/// A client as it takes turns: its task, and what stands before each of its lines.
#[derive(Drop)]
pub(crate) struct Client {
    pub(crate) task: Task,
    pub(crate) prefix: Text,
}
