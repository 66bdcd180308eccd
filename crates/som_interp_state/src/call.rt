//! A call that has passed its tests, and which bodies of hooks and of the method are left to invoke.

use som_objects::Cell;
use som_tables::{ClassNo, MToken};
use som_trace::{Manner, Place};
use som_values::Reference;

/// A call that has passed the tests of the language: who makes it, how, on whom, the parent whose body is wanted in a
/// parent call, the method's own token, and the arguments.
#[derive(Drop)]
pub struct Call {
    pub from: Place,
    pub manner: Manner,
    pub me: Reference,
    pub parent: Option<ClassNo>,
    pub method: MToken,
    pub args: Vec<Cell>,
}

/// Which bodies of a call are left.
#[derive(Clone, Copy)]
pub enum Stage {
    /// Those of the hooks from this place on, the method's, and then those of all hooks.
    Before(usize),
    /// The method's, and then those of all hooks.
    Method,
    /// Those of so many hooks, the first of them last.
    After(usize),
}

/// The bodies of a call that are left: how many levels the calls in them may go, and the class of the object on which
/// it is made. Only the method's body takes the arguments of the call.
#[derive(Drop)]
pub struct Left {
    pub levels: u32,
    pub class: ClassNo,
    pub stage: Stage,
    pub call: Call,
}
