//! The types of the selects of an image, with numbers for classes and methods.

use crate::WireMethod;
use som_model::List;

/// A method, and the place of the parent whose body of it a class takes.
#[derive(Clone, Copy, PartialEq, Eq)]
pub struct WireSelect {
    pub method: WireMethod,
    pub parent: u8,
}

/// The selects of a class, which goes by its number.
#[derive(Drop)]
pub struct WireSelects {
    pub class: u16,
    pub selects: List<WireSelect>,
}
