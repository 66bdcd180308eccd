//! Type checking of operators, host procedures, casts, class tests and proxies.

ghost use Rattle.som_model.specs.Class.{Class};
ghost use Rattle.som_elab_body.specs.Code.{IsBodyContext, Makes, among_at, classes_at, typed_at};
ghost use Rattle.som_elab_body.specs.Expressions as spec;
ghost use Rattle.som_verify_forms.specs.Kinds.{Stands};
ghost use Rattle.std.specs.Prelude.{List as Seq};

use crate::body_context::BodyContext;
use crate::parts::formed;
use crate::typed_expr::TypedExpr;
use som_model::{Boxed, Expr, HostCode};
use som_sema_scope::key_of;
use som_verify_forms::{
    TypeFault, binary_kind, cast_kind, host_kind, isa_kind, proxy_kind, unary_kind,
};
use std::alloc::Global;

/// An operator of one operand, by its number, over a checked operand.
pub fn unary(alloc: Global, op: u8, part: TypedExpr) -> Result<TypedExpr, TypeFault>
    ensures { (cs : Seq Class) → Makes cs (spec.unary_form op (typed_at cs part)) result }
{
    let TypedExpr { expr: of, kind } = part;
    formed(alloc, Expr::Unary { op, of }, unary_kind(op, kind))
}

/// An operator of two operands, by its number, over checked operands.
pub fn binary(
    alloc: Global,
    op: u8,
    first: TypedExpr,
    second: TypedExpr,
) -> Result<TypedExpr, TypeFault>
    ensures { (cs : Seq Class) → Makes cs (spec.binary_form op (typed_at cs first) (typed_at cs second)) result }
{
    let kind = binary_kind(op, first.kind, second.kind);
    let left = first.expr;
    let right = second.expr;
    formed(alloc, Expr::Binary { op, left, right }, kind)
}

/// A procedure of the host over two checked operands.
pub fn host(
    alloc: Global,
    code: HostCode,
    first: TypedExpr,
    second: TypedExpr,
) -> Result<TypedExpr, TypeFault>
    ensures { (cs : Seq Class) → Makes cs (spec.host_form code (typed_at cs first) (typed_at cs second)) result }
{
    let kind = host_kind(first.kind, second.kind);
    let a = first.expr;
    let b = second.expr;
    formed(alloc, Expr::Host { code, a, b }, kind)
}

/// A reference as one of a class by its name; a run tests it.
pub fn cast(
    alloc: Global,
    context: &BodyContext,
    name: &[u8],
    part: TypedExpr,
) -> Result<TypedExpr, TypeFault>
    requires context { IsBodyContext context.now }
    requires part { Stands (classes_at context.now) part.kind }
    ensures { Makes (classes_at context.now) (spec.cast_form (among_at context.now) name.now (typed_at (classes_at context.now) part)) result }
{
    let TypedExpr { expr: of, kind } = part;
    let key = key_of(alloc, context.scope, name)?;
    let kind = cast_kind(&context.known, &key, kind);
    let class = Boxed::new(alloc, key)?;
    formed(alloc, Expr::Cast { class, of }, kind)
}

/// The boolean whether a reference is of a class by its name.
pub fn isa(
    alloc: Global,
    context: &BodyContext,
    name: &[u8],
    part: TypedExpr,
) -> Result<TypedExpr, TypeFault>
    requires context { IsBodyContext context.now }
    requires part { Stands (classes_at context.now) part.kind }
    ensures { Makes (classes_at context.now) (spec.isa_form (among_at context.now) name.now (typed_at (classes_at context.now) part)) result }
{
    let TypedExpr { expr: of, kind } = part;
    let key = key_of(alloc, context.scope, name)?;
    let kind = isa_kind(&context.known, &key, kind);
    let class = Boxed::new(alloc, key)?;
    formed(alloc, Expr::Isa { class, of }, kind)
}

/// A proxy of a class by its name, for a reference that fits that class.
pub fn proxy(
    alloc: Global,
    context: &BodyContext,
    name: &[u8],
    part: TypedExpr,
) -> Result<TypedExpr, TypeFault>
    requires context { IsBodyContext context.now }
    requires part { Stands (classes_at context.now) part.kind }
    ensures { Makes (classes_at context.now) (spec.proxy_form (among_at context.now) name.now (typed_at (classes_at context.now) part)) result }
{
    let TypedExpr { expr: of, kind } = part;
    let key = key_of(alloc, context.scope, name)?;
    let kind = proxy_kind(&context.known, &key, kind);
    let class = Boxed::new(alloc, key)?;
    formed(alloc, Expr::Proxy { class, of }, kind)
}
