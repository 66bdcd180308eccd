//! The buffer of a `Text`: owned by it alone, or counted by references.

use std::rc::Rc;

/// The bytes that a text holds: those of a vector that was moved in, or some that it shares with its copies.
#[derive(Drop)]
pub(crate) enum TextBytes {
    Moved(Vec<u8>),
    Shared(Rc<Vec<u8>>),
}
