//! Whole programs, which are interfaces, releases and client programs, and the faults of a run.

use crate::List;
use crate::class::{ClassDecl, ClassFace};
use crate::syntax::Block;

/// What a client is compiled against: the faces of a release's classes.
pub struct Interface {
    pub classes: List<ClassFace>,
}

impl Drop for Interface {
    fn drop(self) {
        let Interface { classes } = self;
        drop(classes);
    }
}

/// A release of a class library.
#[derive(Drop)]
pub struct Release {
    pub classes: List<ClassDecl>,
}

/// A client: what it was compiled against, classes of its own, and its main.
#[derive(Drop)]
pub struct ClientProgram {
    pub base: Interface,
    pub classes: List<ClassDecl>,
    pub main: Block,
}

/// What a running program may do wrong.
#[derive(Clone, Copy, PartialEq, Eq)]
pub enum Fault {
    Nil,
    Freed,
    Overflow,
    DivideByZero,
    Cast,
    NoMethod,
    BadArguments,
    TextTooLong,
    Depth,
    ClassFree,
    NotClass,
}
