//! `Source`, a file to be compiled: its name and its bytes.

use som_model::{List, Text};

/// A text to be compiled, and the name that it has.
#[derive(Drop)]
pub struct Source {
    pub name: Text,
    pub bytes: List<u8>,
}
