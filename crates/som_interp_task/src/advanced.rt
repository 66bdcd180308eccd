//! What an advance came to.

use som_model::Fault;
use som_trace::Running;

/// What an advance came to: the task can be gone on with, its main is over, or it has a fault in a place; or the sink
/// failed, or there was no memory.
#[derive(Drop)]
pub enum Advanced {
    Going,
    Done,
    SourceFault { fault: Fault, at: Running },
    SinkFailed,
    NoMemory,
}
