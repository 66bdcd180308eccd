//! The type of a release with numbers for its classes and methods.

use som_image_fields::WireFace;
use som_model::List;
use som_wire::{WirePart, WireSelects};

/// A release as its image has it: a face and a part for each class, and the selects of those that have some.
#[derive(Drop)]
pub struct WireRelease {
    pub faces: List<WireFace>,
    pub parts: List<WirePart>,
    pub selects: List<WireSelects>,
}
