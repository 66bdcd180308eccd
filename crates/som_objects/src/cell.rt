//! A cell: the value of one variable, local or operand.

use crate::{ObjRef, SharedText};
use som_tables::ClassNo;

/// What a variable of an object holds: a number, a boolean, a text, nil, or a reference to an object, to the class object of a
/// class, or to the class manager object. The empty text takes no memory.
#[derive(Drop)]
pub enum Cell {
    Long(i32),
    Boolean(bool),
    Str(SharedText),
    EmptyStr,
    Nil,
    Object(ObjRef),
    Class(ClassNo),
    Manager,
}
