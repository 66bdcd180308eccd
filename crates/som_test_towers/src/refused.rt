//! Why a tower isn't laid or compared, and why not all words are done.

use som_model::{List, NoMemory};
use som_test_queries::Unasked;
use std::io;

/// Why not all words are done.
#[derive(Debug, Drop)]
pub enum TowerFault {
    NoMemory,
    /// A file can't be read, or nothing can be written.
    File,
    /// A word or a line isn't understood.
    Word,
    /// A question isn't answered.
    Question(Unasked),
}

impl From<NoMemory> for TowerFault {
    fn from(_e: NoMemory) -> TowerFault {
        TowerFault::NoMemory
    }
}

impl From<io::Error> for TowerFault {
    fn from(_e: io::Error) -> TowerFault {
        TowerFault::File
    }
}

/// Why a tower isn't laid or compared.
#[derive(Drop)]
pub enum Refused {
    /// An answer like any other: what is told of an image or of levels.
    Told(List<u8>),
    /// The program ends.
    Fault(TowerFault),
}

impl From<NoMemory> for Refused {
    fn from(_e: NoMemory) -> Refused {
        Refused::Fault(TowerFault::NoMemory)
    }
}

impl From<io::Error> for Refused {
    fn from(_e: io::Error) -> Refused {
        Refused::Fault(TowerFault::File)
    }
}

impl From<Unasked> for Refused {
    fn from(e: Unasked) -> Refused {
        Refused::Fault(TowerFault::Question(e))
    }
}
