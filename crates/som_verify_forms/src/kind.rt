//! The type checker's types, in which a class goes by its place.

/// The type of an expression. A class goes by its place: the kernel's classes first, then the declared ones.
/// `Nil` is the type of plain nil, and `Void` that of a call which answers nothing.
#[derive(Clone, Copy, PartialEq, Eq)]
pub enum Kind {
    Void,
    Long,
    Boolean,
    Str,
    Nil,
    Class(usize),
}
