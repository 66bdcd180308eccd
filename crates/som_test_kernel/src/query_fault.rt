//! Why not all words were done.

use som_image_fields::ImageFault;
use som_model::NoMemory;
use som_test_queries::Unasked;
use som_test_stepping::NotTaken;
use std::io;

/// Why not all words were done.
#[derive(Debug, Drop)]
pub enum QueryFault {
    NoMemory,
    /// A file can't be read, or nothing can be written.
    File,
    /// The bytes of a file are no image.
    Image,
    /// The client and the library can't be linked.
    Link,
    /// A word isn't understood.
    Word,
    /// A question isn't answered.
    Question(Unasked),
    /// Tasks weren't taken to the end.
    Task(NotTaken),
}

impl From<NoMemory> for QueryFault {
    fn from(_e: NoMemory) -> QueryFault {
        QueryFault::NoMemory
    }
}

impl From<io::Error> for QueryFault {
    fn from(_e: io::Error) -> QueryFault {
        QueryFault::File
    }
}

impl From<ImageFault> for QueryFault {
    fn from(_e: ImageFault) -> QueryFault {
        QueryFault::Image
    }
}

impl From<Unasked> for QueryFault {
    fn from(e: Unasked) -> QueryFault {
        QueryFault::Question(e)
    }
}

impl From<NotTaken> for QueryFault {
    fn from(e: NotTaken) -> QueryFault {
        QueryFault::Task(e)
    }
}
