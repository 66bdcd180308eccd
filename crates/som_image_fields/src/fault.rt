//! The faults of decoding, each with the byte where it is, and those of encoding.

ghost use Rattle.std.specs.Prelude.{◌≡◌};
ghost use Rattle.som_image_fields.specs.declared.fault.ImageFault.TheVariants as faults;
ghost use Rattle.som_image_fields.specs.declared.fault.EncodeFault.TheVariants as encode_faults;

use som_model::NoMemory;
use thiserror::Error;

/// What is wrong with the bytes of an image: the first fault from left to right, and where.
#[derive(Clone, Copy, Debug, PartialEq, Eq, Error)]
pub enum ImageFault {
    #[error("no image of this kind begins at byte {offset}")]
    Magic { offset: usize },
    #[error("a form of images that isn't known, at byte {offset}")]
    Version { offset: usize },
    #[error("the image ends too early, at byte {offset}")]
    Cut { offset: usize },
    #[error("a tag that can't stand at byte {offset}")]
    Tag { offset: usize },
    #[error("a number out of its range at byte {offset}")]
    Number { offset: usize },
    #[error("the image goes on after its end, at byte {offset}")]
    Trailing { offset: usize },
    #[error("nested too deep at byte {offset}")]
    Nesting { offset: usize },
    #[error("out of memory")]
    NoMemory,
}

impl From<NoMemory> for ImageFault {
    ghost from_gives = { λ _ e. e ≡ faults.NoMemory };

    fn from(_e: NoMemory) -> ImageFault {
        ImageFault::NoMemory
    }
}

/// Why an image wasn't written.
#[derive(Clone, Copy, Debug, PartialEq, Eq, Error)]
pub enum EncodeFault {
    #[error("out of memory")]
    NoMemory,
}

impl From<NoMemory> for EncodeFault {
    ghost from_gives = { λ _ e. e ≡ encode_faults.NoMemory };

    fn from(_e: NoMemory) -> EncodeFault {
        EncodeFault::NoMemory
    }
}
