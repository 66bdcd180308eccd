//! The type of a level of a tower above its lowest, and how many levels may be below.

use som_model::{ClientProgram, List};

/// Levels below a client of a tower: so many levels a tower has.
pub const MAX_BELOW_CLIENT: u8 = 8;

/// Levels below a library of a tower, which may itself be below a client.
pub const MAX_BELOW_LIBRARY: u8 = 7;

/// A library above others, or a client of a tower. Its program is flat: the classes of all levels below are its base, one
/// level's after the other's, and `sizes` says how many each level has, from the lowest up.
#[derive(Drop)]
pub struct Level {
    pub sizes: List<u16>,
    pub program: ClientProgram,
    pub client: bool,
}
