//! Why a case of questions wasn't asked to its end.

use som_image_fields::ImageFault;
use som_model::NoMemory;
use std::io;
use std::num::TryFromIntError;

/// Why a case wasn't asked to its end.
#[derive(Debug, Drop)]
pub enum Unasked {
    NoMemory,
    /// A file can't be read, or nothing can be written.
    File,
    /// The bytes of a file are no image.
    Image,
    /// A line is no question, or names a class or a method that isn't there.
    Line,
    /// The class has to be made before it is asked that.
    NotMade,
}

impl From<NoMemory> for Unasked {
    fn from(_e: NoMemory) -> Unasked {
        Unasked::NoMemory
    }
}

impl From<io::Error> for Unasked {
    fn from(_e: io::Error) -> Unasked {
        Unasked::File
    }
}

impl From<ImageFault> for Unasked {
    fn from(_e: ImageFault) -> Unasked {
        Unasked::Image
    }
}

impl From<TryFromIntError> for Unasked {
    fn from(_e: TryFromIntError) -> Unasked {
        Unasked::Line
    }
}
