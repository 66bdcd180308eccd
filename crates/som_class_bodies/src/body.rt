//! A body of a run: the class that has it, its method, and where its text or kernel code stands.

use som_tables::{ClassNo, MToken};

/// Where a body stands in the class that has it.
#[derive(Clone, Copy, PartialEq, Eq)]
pub enum Source {
    /// Its place among the bodies for the methods that the class introduces.
    Introduced(u16),
    /// Its place among the class's overrides.
    Overriding(u16),
    /// The kernel's own body of the method's name.
    Kernel,
    /// The call is handed on to the target of a proxy.
    Forward,
    /// It does nothing.
    Nothing,
}

/// A body: the class that has it, the token of its method, and where it stands.
#[derive(Clone, Copy, PartialEq, Eq)]
pub struct BodyAt {
    pub class: ClassNo,
    pub method: MToken,
    pub source: Source,
}
