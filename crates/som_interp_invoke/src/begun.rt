//! A body that is about to begin: its class, method, and what it holds.

use som_interp_builtins::KernelBody;
use som_tables::{ClassNo, MToken};

/// What is begun: the code of a block by its number, a reader or writer of a variable, a body of the kernel's, a
/// proxy's forward, or nothing.
#[derive(Clone, Copy)]
pub enum What {
    Code(usize),
    Get(u8),
    Set(u8),
    Kernel(KernelBody),
    Forward,
    Nothing,
}

/// A body that is begun: the class whose body it is, the token of its method's own reference, and what it is.
#[derive(Clone, Copy)]
pub struct Begun {
    pub class: ClassNo,
    pub method: MToken,
    pub what: What,
}
