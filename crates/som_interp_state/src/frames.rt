//! The frames of a task: what is done next, and what waits for a value.

use crate::{Body, Call, Left};
use som_objects::{Cell, ObjRef};
use som_trace::Place;
use som_values::Reference;

/// What a task does next.
#[derive(Drop)]
pub enum Now {
    /// A body's code goes on.
    Running(Body),
    /// A call that has passed its tests is made.
    Calling { levels: u32, call: Call },
    /// The bodies of a call that are left are invoked; the call answers this so far.
    Invoking { left: Left, answer: Cell },
    /// A value is answered to what waits last.
    Answering(Cell),
}

/// What waits for a value. A method, a class and a type that code names are looked up there, by the number of the
/// code and the place of the instruction.
#[derive(Drop)]
pub enum Waiting {
    /// A body, for the value of its call.
    Call(Body),
    /// The bodies of a call that are left, for the end of a hook's body.
    Hook {
        left: Left,
        answer: Cell,
    },
    /// The bodies of a call that are left, for the value of the method's body.
    Method(Left),
    /// `new C`, for the object, which has to be of class C.
    Object {
        from: Place,
        code: usize,
        at: usize,
    },
    /// somNew, for the end of somInit on the object that it answers.
    Init(ObjRef),
    /// somFree, for the end of somUninit on the object that it frees.
    Uninit {
        from: Place,
        object: ObjRef,
    },
    /// A dispatch, for the name by which it calls: its receiver and arguments.
    Name {
        levels: u32,
        from: Place,
        code: usize,
        at: usize,
        on: Cell,
        args: Vec<Cell>,
    },
    /// A call of the bodies of all parents, for the body of one of them: the place of the next parent.
    Parent {
        levels: u32,
        me: Option<Reference>,
        from: Place,
        parent: usize,
        code: usize,
        at: usize,
        args: Vec<Cell>,
    },
}

/// What a task does next, and what waits, the one that waits for it last.
pub struct Frames {
    pub now: Now,
    pub waiting: Vec<Waiting>,
}

impl Drop for Frames {
    fn drop(self) {
        let Frames { now, waiting } = self;
        drop(now);
        drop(waiting);
    }
}
