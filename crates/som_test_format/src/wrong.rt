//! Why a line of a case comes to nothing.

use som_model::NoMemory;
use std::alloc::{AllocError, AllocFailed};

/// Why a line comes to nothing.
#[derive(Clone, Copy, Debug, PartialEq, Eq)]
pub enum Wrong {
    /// It is not understood.
    Unclear,
    Memory,
}

impl From<NoMemory> for Wrong {
    fn from(_e: NoMemory) -> Wrong {
        Wrong::Memory
    }
}

impl From<AllocError> for Wrong {
    fn from(_e: AllocError) -> Wrong {
        Wrong::Memory
    }
}

impl<T: Drop> From<AllocFailed<T>> for Wrong {
    fn from(_e: AllocFailed<T>) -> Wrong {
        Wrong::Memory
    }
}
