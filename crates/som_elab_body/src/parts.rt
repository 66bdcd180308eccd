//! The checked operands and arguments of an expression, and the typed expression that they make.

ghost use Rattle.som_model.specs.Class.{Class};
ghost use Rattle.som_model.specs.Typing.{Typed};
ghost use Rattle.som_elab_body.specs.Code.{Makes, typed_at};
ghost use Rattle.som_elab_body.specs.Expressions as spec;
ghost use Rattle.som_elab_body.specs.Forms.{Adds, AreParts, parts_at};
ghost use Rattle.som_verify_forms.specs.Kinds.{Comes, Stands};
ghost use Rattle.std.specs.Prelude.{◌≡◌, List as Seq, [], OnOk};

use crate::typed_expr::TypedExpr;
use som_model::{Boxed, Expr, List, NoMemory};
use som_verify_forms::{Kind, TypeFault, is_nothing};
use std::alloc::Global;

/// The operands or arguments of an expression in their order, and at each index of `kinds` the kind of one.
#[derive(Drop)]
pub struct Parts {
    pub exprs: List<Expr>,
    pub kinds: Vec<Kind>,
}

/// No parts, which take no memory.
pub fn no_parts(alloc: Global) -> Parts
    ensures parts { (cs : Seq Class) → parts_at cs result ≡ [] }
    ensures are { (cs : Seq Class) → AreParts cs result }
{
    Parts {
        exprs: List::new(alloc),
        kinds: Vec::new(alloc),
    }
}

/// Adds a part at the end, out of its box.
pub fn add(parts: &mut Parts, made: TypedExpr) -> Result<(), NoMemory>
    ensures { OnOk result ((cs : Seq Class) → AreParts cs parts.old → Stands cs made.kind → Adds cs parts.old made parts.new) }
{
    let TypedExpr { expr, kind } = made;
    parts.exprs.push(expr.into_inner())?;
    parts.kinds.push(kind)?;
    Ok(())
}

/// A part of a larger expression has a value, or rule 20 is broken.
pub fn valued(made: TypedExpr) -> Result<TypedExpr, TypeFault>
    ensures { (cs : Seq Class) → Stands cs made.kind → Makes cs (spec.valued (typed_at cs made)) result }
{
    if is_nothing(made.kind) {
        Err(TypeFault::Rule(20))
    } else {
        Ok(made)
    }
}

/// An expression in a box, with the kind that its form has, or the rule that the form breaks.
pub fn formed(alloc: Global, expr: Expr, kind: Result<Kind, u8>) -> Result<TypedExpr, TypeFault>
    ensures { (cs : Seq Class) (type : Typed) → Comes cs type kind → Makes cs (spec.formed expr type) result }
{
    let expr = Boxed::new(alloc, expr)?;
    let kind = kind?;
    Ok(TypedExpr { expr, kind })
}
