//! The syntax tree of bodies: blocks, statements and expressions with names, as images and runs have them.

use crate::key::{ClassKey, MethodRef, ValueType};
use crate::{Boxed, List, Text};

/// The procedures that a program may ask of its host, each of two longs: the lesser and the greater, the operations on
/// their 32 bits, and the sum that wraps at 32 bits.
#[derive(Clone, Copy, PartialEq, Eq)]
pub enum HostCode {
    Min,
    Max,
    And,
    Or,
    Xor,
    WrapAdd,
}

/// A body, or a part of one: statements in order.
#[cycle(syntax)]
#[derive(Drop)]
pub struct Block {
    pub statements: List<Stmt>,
}

/// A statement. A local goes by its place among the parameters and locals in scope, parameters first;
/// a variable by its place among those of the body's class.
#[cycle(syntax)]
#[derive(Drop)]
pub enum Stmt {
    Var {
        kind: Boxed<ValueType>,
        value: Boxed<Expr>,
    },
    SetLocal {
        local: u16,
        value: Boxed<Expr>,
    },
    SetVariable {
        variable: u8,
        value: Boxed<Expr>,
    },
    /// Without an `else` the other block is empty.
    If {
        condition: Boxed<Expr>,
        then: Boxed<Block>,
        other: Boxed<Block>,
    },
    While {
        condition: Boxed<Expr>,
        block: Boxed<Block>,
    },
    Return,
    ReturnValue {
        value: Boxed<Expr>,
    },
    Print {
        value: Boxed<Expr>,
    },
    Free {
        value: Boxed<Expr>,
    },
    Call {
        call: Boxed<Expr>,
    },
}

/// An expression. The operators go by the numbers that an image has for them: of one operand minus, not,
/// length and text, from 0; of two `+ - * / % == != < <= > >=`, and, or and `&`, from 0.
#[derive(Drop)]
pub enum Expr {
    Long(i32),
    Str(Text),
    Boolean(bool),
    Nil,
    Local(u16),
    Me,
    Variable(u8),
    Unary {
        op: u8,
        of: Boxed<Expr>,
    },
    Binary {
        op: u8,
        left: Boxed<Expr>,
        right: Boxed<Expr>,
    },
    New(Boxed<ClassKey>),
    Class(Boxed<ClassKey>),
    Manager,
    Cast {
        class: Boxed<ClassKey>,
        of: Boxed<Expr>,
    },
    Isa {
        class: Boxed<ClassKey>,
        of: Boxed<Expr>,
    },
    Proxy {
        class: Boxed<ClassKey>,
        of: Boxed<Expr>,
    },
    OffsetCall {
        method: Boxed<MethodRef>,
        receiver: Boxed<Expr>,
        args: List<Expr>,
    },
    Lookup {
        result: Boxed<ValueType>,
        name: Boxed<Text>,
        receiver: Boxed<Expr>,
        args: List<Expr>,
    },
    Dispatch {
        result: Boxed<ValueType>,
        name: Boxed<Text>,
        receiver: Boxed<Expr>,
        args: List<Expr>,
    },
    /// A call of a parent's method on self; the parent goes by its place among those of the body's class.
    ParentCall {
        parent: u8,
        method: Boxed<MethodRef>,
        args: List<Expr>,
    },
    ParentsCall {
        method: Boxed<MethodRef>,
        args: List<Expr>,
    },
    Host {
        code: HostCode,
        a: Boxed<Expr>,
        b: Boxed<Expr>,
    },
}
