//! The syntax trees of an image: blocks, statements, expressions and parts, with numbers for names.

use crate::{WireMethod, WireType};
use som_model::{Boxed, HostCode, List, Text};

/// A block of an image: statements in order.
#[cycle(syntax)]
#[derive(Drop)]
pub struct WireBlock {
    pub statements: List<WireStmt>,
}

/// A statement of an image. A local goes by its place among the parameters and locals in scope, a variable by its place
/// among those of the body's class.
#[cycle(syntax)]
#[derive(Drop)]
pub enum WireStmt {
    Var {
        kind: WireType,
        value: WireExpr,
    },
    SetLocal {
        local: u16,
        value: WireExpr,
    },
    SetVariable {
        variable: u8,
        value: WireExpr,
    },
    /// Without an `else` the other block is empty.
    If {
        condition: WireExpr,
        then: WireBlock,
        other: WireBlock,
    },
    While {
        condition: WireExpr,
        block: WireBlock,
    },
    Return,
    ReturnValue {
        value: WireExpr,
    },
    Print {
        value: WireExpr,
    },
    Free {
        value: WireExpr,
    },
    Call {
        call: WireExpr,
    },
}

/// An expression of an image. Classes go by their numbers, and operators too: of one operand minus, not, length and
/// text, from 0; of two `+ - * / % == != < <= > >=`, and, or and `&`, from 0.
#[derive(Drop)]
pub enum WireExpr {
    Long(i32),
    Str(Text),
    Boolean(bool),
    Nil,
    Local(u16),
    Me,
    Variable(u8),
    Unary {
        op: u8,
        of: Boxed<WireExpr>,
    },
    Binary {
        op: u8,
        left: Boxed<WireExpr>,
        right: Boxed<WireExpr>,
    },
    New(u16),
    Class(u16),
    Manager,
    Cast {
        class: u16,
        of: Boxed<WireExpr>,
    },
    Isa {
        class: u16,
        of: Boxed<WireExpr>,
    },
    Proxy {
        class: u16,
        of: Boxed<WireExpr>,
    },
    OffsetCall {
        method: WireMethod,
        receiver: Boxed<WireExpr>,
        args: List<WireExpr>,
    },
    Lookup {
        result: WireType,
        name: Text,
        receiver: Boxed<WireExpr>,
        args: List<WireExpr>,
    },
    Dispatch {
        result: WireType,
        name: Text,
        receiver: Boxed<WireExpr>,
        args: List<WireExpr>,
    },
    /// A call of a parent's method on self; the parent goes by its place among those of the body's class.
    ParentCall {
        parent: u8,
        method: WireMethod,
        args: List<WireExpr>,
    },
    ParentsCall {
        method: WireMethod,
        args: List<WireExpr>,
    },
    Host {
        code: HostCode,
        a: Boxed<WireExpr>,
        b: Boxed<WireExpr>,
    },
}

/// An instance variable of an image. Its class goes by its number.
#[derive(Drop)]
pub struct WireVariable {
    pub name: Text,
    pub kind: WireType,
}

/// The body of an introduced method of an image: a block, or what gets or sets a variable.
#[derive(Drop)]
pub enum WireBody {
    User(WireBlock),
    Get(u8),
    Set(u8),
}

/// A body for a method that an ancestor introduces.
#[derive(Drop)]
pub struct WireOverride {
    pub method: WireMethod,
    pub block: WireBlock,
}

/// What a class of an image has beside its face, with one body for each introduced entry of the face.
#[derive(Drop)]
pub struct WirePart {
    pub variables: List<WireVariable>,
    pub bodies: List<WireBody>,
    pub overrides: List<WireOverride>,
}
