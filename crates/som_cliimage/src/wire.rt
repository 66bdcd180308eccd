//! The type of a client program with numbers for its classes and methods.

use som_image_fields::WireFace;
use som_model::List;
use som_wire::{WireBlock, WirePart, WireSelects};

/// A client program as its image has it: the faces that it was compiled against, a face and a part for each class of its own,
/// the selects of those of its own that have some, and main.
#[derive(Drop)]
pub struct WireProgram {
    pub base: List<WireFace>,
    pub faces: List<WireFace>,
    pub parts: List<WirePart>,
    pub selects: List<WireSelects>,
    pub main: WireBlock,
}
