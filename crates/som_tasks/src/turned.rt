//! What the turns of several clients came to.

use som_exec::Advanced;
use som_model::List;

/// What the turns of several clients came to: all were taken, and each client has an end, which is Going, Done or
/// SourceFault; or the sink failed, or there was no memory.
#[derive(Drop)]
pub enum Turned {
    Finished { ends: List<Advanced> },
    SinkFailed,
    NoMemory,
}
