//! A body as a linked kernel shows it to a runner.

use som_model::Block;
use som_tables::{ClassNo, MToken};

/// What a class has for a method: a block, the reader or writer of one of its variables, a body of the kernel's, a
/// proxy's forward, or a body that does nothing.
#[derive(Clone, Copy)]
pub enum Held<'a> {
    User(&'a Block),
    Get(u8),
    Set(u8),
    Kernel,
    Forward,
    Nothing,
}

/// A body: the class whose body it is, the token of its method's own reference, and what it holds.
#[derive(Clone, Copy)]
pub struct BodyView<'a> {
    pub class: ClassNo,
    pub method: MToken,
    pub held: Held<'a>,
}
