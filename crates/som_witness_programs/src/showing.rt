//! The ways in which a client shows a breach, with types that are lent.

use som_model::{ClassKey, ValueType};

/// What the client's one class does. The parameters are those that the told method has in the older interface.
#[derive(Clone, Copy)]
pub enum Showing<'a> {
    /// It descends from the told class, and no more.
    StandsBelow,
    /// It keeps an object of the told class in a variable of this class.
    KeepsObject(&'a ClassKey),
    /// It overrides the method with an empty body.
    Overrides(&'a [ValueType]),
    /// It calls the method by the slot that the told class has for it.
    CallsSlot(&'a [ValueType]),
    /// It calls the method with as many values.
    Calls(&'a [ValueType]),
    /// It calls the method with a value of this type at this place.
    Passes {
        params: &'a [ValueType],
        place: u16,
        kind: &'a ValueType,
    },
    /// It overrides the method, and keeps the parameter at this place in a variable of this type.
    KeepsParameter {
        params: &'a [ValueType],
        place: u16,
        kind: &'a ValueType,
    },
    /// It overrides the method, and returns nothing.
    ReturnsNothing(&'a [ValueType]),
    /// It overrides the method, and returns a variable of this type.
    ReturnsVariable {
        params: &'a [ValueType],
        kind: &'a ValueType,
    },
    /// It calls the method, and returns what that answers as a value of this type.
    ReturnsAnswer {
        params: &'a [ValueType],
        kind: &'a ValueType,
    },
    /// It returns the class object of the told class as an object of this class.
    ReturnsClass(&'a ClassKey),
}
