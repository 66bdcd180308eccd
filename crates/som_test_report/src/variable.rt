//! A variable of a case's row, with its value.

use som_model::Text;

/// A variable of an `each`, with its value: a text in which at most the forms of single bytes are left.
#[derive(Drop)]
pub struct Variable {
    pub name: Text,
    pub value: Vec<u8>,
}
