//! The lines of the grammar of expressions, and what their readers carry beside a tree.

ghost use Rattle.som_body.specs.Reading.{tall};
ghost use Rattle.std.specs.Prelude.{◌≡◌, IfOk};

use som_ast::{ExprText, Word};
use som_model::{Boxed, List, NoMemory};
use std::alloc::Global;

/// A line of the grammar, by what binds loosest in it.
#[derive(Clone, Copy)]
pub enum Line {
    Expr,
    Conj,
    Neg,
    Cmp,
    Sum,
    Prod,
    Unary,
    Cast,
    Postfix,
    Primary,
}

/// An expression, as a part of another one, and how many levels it takes.
#[derive(Drop)]
pub struct Tall {
    pub tree: Boxed<ExprText>,
    pub height: usize,
}

impl Tall {
    pub(crate) fn new(alloc: Global, tree: ExprText, height: usize) -> Result<Tall, NoMemory>
        ensures { IfOk result (λ a. a ≡ tall tree height) }
    {
        let tree = Boxed::new(alloc, tree)?;
        Ok(Tall { tree, height })
    }
}

/// The arguments that a call is given, and how many levels the deepest takes.
#[derive(Drop)]
pub(crate) struct Given {
    pub(crate) args: List<ExprText>,
    pub(crate) height: usize,
}

/// A call by name so far: what its last step is made on, and that step.
#[derive(Drop)]
pub(crate) struct NamedCall {
    pub(crate) receiver: Tall,
    pub(crate) method: Word,
    pub(crate) given: Given,
}
