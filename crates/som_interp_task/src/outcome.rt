//! What a whole run came to.

use som_model::Fault;
use som_trace::Running;

/// What a whole run came to: main is over, it has a fault in a place, or its fuel is spent; or the sink failed, or there
/// was no memory.
#[derive(Drop)]
pub enum Outcome {
    Done,
    SourceFault { fault: Fault, at: Running },
    Spent,
    SinkFailed,
    NoMemory,
}
