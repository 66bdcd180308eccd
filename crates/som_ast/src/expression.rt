//! The syntax tree of expressions as they stand in a text.

use crate::words::{TypeName, Word};
use som_model::{Boxed, HostCode, List, Text};

/// An expression, as it is written but for parentheses, which leave no trace. The operators go by the numbers of `MINUS` to
/// `TEXT` and of `ADD` to `JOIN`. A literal is its text after escapes. The result of a call by name that answers nothing is `None`.
#[derive(Drop)]
pub enum ExprText {
    Number(u32),
    Literal(Text),
    Boolean(bool),
    Nil,
    Name(Word),
    Me,
    Variable(Word),
    Unary {
        op: u8,
        of: Boxed<ExprText>,
    },
    Binary {
        op: u8,
        left: Boxed<ExprText>,
        right: Boxed<ExprText>,
    },
    New(Word),
    Class(Word),
    Manager,
    Cast {
        class: Word,
        of: Boxed<ExprText>,
    },
    Isa {
        class: Word,
        of: Boxed<ExprText>,
    },
    Proxy {
        class: Word,
        of: Boxed<ExprText>,
    },
    Call {
        receiver: Boxed<ExprText>,
        method: Word,
        args: List<ExprText>,
    },
    Lookup {
        result: Option<TypeName>,
        receiver: Boxed<ExprText>,
        method: Word,
        args: List<ExprText>,
    },
    Dispatch {
        result: Option<TypeName>,
        receiver: Boxed<ExprText>,
        method: Word,
        args: List<ExprText>,
    },
    Parent {
        parent: Word,
        method: Word,
        args: List<ExprText>,
    },
    Parents {
        method: Word,
        args: List<ExprText>,
    },
    Host {
        code: HostCode,
        a: Boxed<ExprText>,
        b: Boxed<ExprText>,
    },
}
