//! Why tasks weren't taken to their end.

use som_image_fields::ImageFault;
use som_link_check::LinkFault;
use som_model::NoMemory;
use std::alloc::{AllocError, AllocFailed};
use std::io;

/// Why tasks weren't taken to the end of what a word asks.
#[derive(Debug, Drop)]
pub enum NotTaken {
    NoMemory,
    /// A file can't be read, or nothing can be written.
    File,
    /// The bytes of a file are no image.
    Image,
    /// The client and the library can't be linked.
    Link,
    /// The word isn't understood, or asks for more units than a task can be granted.
    Word,
    /// The sink refused a line.
    Sink,
}

impl From<NoMemory> for NotTaken {
    fn from(_e: NoMemory) -> NotTaken {
        NotTaken::NoMemory
    }
}

impl From<AllocError> for NotTaken {
    fn from(_e: AllocError) -> NotTaken {
        NotTaken::NoMemory
    }
}

impl<T: Drop> From<AllocFailed<T>> for NotTaken {
    fn from(_e: AllocFailed<T>) -> NotTaken {
        NotTaken::NoMemory
    }
}

impl From<io::Error> for NotTaken {
    fn from(_e: io::Error) -> NotTaken {
        NotTaken::File
    }
}

impl From<ImageFault> for NotTaken {
    fn from(_e: ImageFault) -> NotTaken {
        NotTaken::Image
    }
}

impl From<LinkFault> for NotTaken {
    fn from(_e: LinkFault) -> NotTaken {
        NotTaken::Link
    }
}
