//! The type of what a decoder answers: a value, and the place after it.

/// A field that was read, and the place after it.
#[derive(Drop)]
pub struct Read<T> {
    pub value: T,
    pub next: usize,
}
