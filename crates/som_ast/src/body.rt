//! The syntax tree of bodies and mains: statements and blocks as they stand in a text.

use crate::expression::ExprText;
use crate::words::{TypeName, Word};
use som_model::List;

/// The bodies of a file, in order.
#[derive(Drop)]
pub struct BodyFile {
    pub bodies: List<BodyText>,
}

/// The main of a client, a file of one block.
#[derive(Drop)]
pub struct MainFile {
    pub block: BlockText,
}

/// The body of a method of a class.
#[derive(Drop)]
pub struct BodyText {
    pub class: Word,
    pub method: Word,
    pub params: List<Word>,
    pub block: BlockText,
}

/// A block: its statements in order.
#[cycle(syntax)]
#[derive(Drop)]
pub struct BlockText {
    pub statements: List<StmtText>,
}

/// A statement, as it is written.
#[cycle(syntax)]
#[derive(Drop)]
pub enum StmtText {
    Var {
        name: Word,
        kind: TypeName,
        value: ExprText,
    },
    Set {
        name: Word,
        value: ExprText,
    },
    SetVariable {
        name: Word,
        value: ExprText,
    },
    /// Without an `else` the other block is empty; an `else if` is a block of one `If`.
    If {
        condition: ExprText,
        then: BlockText,
        other: BlockText,
    },
    While {
        condition: ExprText,
        block: BlockText,
    },
    Return {
        value: Option<ExprText>,
    },
    Print {
        value: ExprText,
    },
    Free {
        value: ExprText,
    },
    Call {
        call: ExprText,
    },
}
