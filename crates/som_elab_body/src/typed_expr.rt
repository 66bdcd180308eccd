//! `TypedExpr`, an expression with its type.

ghost use Rattle.std.specs.Prelude.{◌≡◌, IfOk};

use som_model::{Boxed, Expr, NoMemory};
use som_verify_forms::Kind;
use std::alloc::Global;

/// A named expression, as a part of what holds it, and its type.
#[derive(Drop)]
pub struct TypedExpr {
    pub expr: Boxed<Expr>,
    pub kind: Kind,
}

impl TypedExpr {
    /// The expression moves behind a pointer, so that dropping it is one step.
    pub fn new(alloc: Global, expr: Expr, kind: Kind) -> Result<TypedExpr, NoMemory>
        ensures { IfOk result (λ made. made ≡ record { expr = expr; kind = kind }) }
    {
        let expr = Boxed::new(alloc, expr)?;
        Ok(TypedExpr { expr, kind })
    }
}
