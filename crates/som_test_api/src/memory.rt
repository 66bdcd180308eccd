//! Want of memory, as an error that a test can tell.

use som_model::NoMemory;

/// Memory was wanting.
#[derive(Debug, Drop)]
pub struct OutOfMemory;

/// Want of memory in a call, as a test tells it.
pub fn out_of_memory(_e: NoMemory) -> OutOfMemory {
    OutOfMemory
}
