//! `NoMemory`, the error of every call that takes memory.

use std::alloc::{AllocError, AllocFailed};

/// Want of memory. It may come from each call that is handed an allocator, and leaves what was lent as it was.
#[derive(Clone, Copy, PartialEq, Eq)]
pub struct NoMemory;

impl From<AllocError> for NoMemory {
    fn from(_e: AllocError) -> NoMemory {
        NoMemory
    }
}

impl<T: Drop> From<AllocFailed<T>> for NoMemory {
    fn from(_e: AllocFailed<T>) -> NoMemory {
        NoMemory
    }
}
