//! The instructions of an operand stack machine.

use som_model::{ClassKey, HostCode, MethodRef, Text, ValueType};

/// A value that stands in code.
#[derive(Drop)]
pub enum Constant {
    Long(i32),
    Str(Text),
    Boolean(bool),
    Nil,
}

/// One instruction. It takes its operands from a stack and leaves its value there. A local goes by its place
/// among the parameters and locals that are visible, and a jump by the place of the instruction that is next.
/// A call takes so many arguments, the last on top, and below them its receiver, where it has one.
#[derive(Drop)]
pub enum Instruction {
    Push(Constant),
    Get(usize),
    /// The local of this place takes the top; one more is visible where the place is their number.
    Set(usize),
    /// The locals from this place on are no longer visible.
    Cut(usize),
    Me,
    GetVariable(u8),
    SetVariable(u8),
    /// An operator of one operand by its number, as in an expression.
    Unary(u8),
    /// An operator of two operands by its number, as in an expression, but neither `and` nor `or`.
    Binary(u8),
    Jump(usize),
    /// A jump where the top isn't TRUE.
    Unless(usize),
    /// A unit of fuel is taken.
    Turn,
    New(ClassKey),
    Class(ClassKey),
    Manager,
    Cast(ClassKey),
    Isa(ClassKey),
    Proxy(ClassKey),
    OffsetCall {
        method: MethodRef,
        args: usize,
    },
    Lookup {
        result: ValueType,
        name: Text,
        args: usize,
    },
    Dispatch {
        result: ValueType,
        name: Text,
        args: usize,
    },
    ParentCall {
        parent: u8,
        method: MethodRef,
        args: usize,
    },
    ParentsCall {
        method: MethodRef,
        args: usize,
    },
    Host(HostCode),
    Print,
    /// The top is taken off.
    Drop,
    /// The body ends with its type's zero value.
    Return,
    /// The body ends with the top.
    ReturnValue,
}
