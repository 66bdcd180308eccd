//! Type checking of expressions without parts: literals, locals, self, variables, new objects, classes.

ghost use Rattle.som_model.specs.Class.{Class};
ghost use Rattle.som_model.specs.Typing.{Of, self_type};
ghost use Rattle.som_model.specs.declared.key.ValueType.TheVariants as types;
ghost use Rattle.som_model.specs.declared.syntax.Expr.TheVariants as exprs;
ghost use Rattle.som_elab_body.specs.Code.{AreLocals, IsBodyContext, Makes, among_at, classes_at, names_at, place_at};
ghost use Rattle.som_elab_body.specs.Expressions as spec;
ghost use Rattle.std.specs.Prelude.{List as Seq, Ok};

use crate::body_context::BodyContext;
use crate::local::Local;
use crate::names::{local_of, variable_place};
use crate::parts::formed;
use crate::typed_expr::TypedExpr;
use som_model::{Boxed, Expr, Text};
use som_sema_scope::key_of;
use som_verify_forms::{Kind, TypeFault, class_kind, new_kind, self_kind, variable_kind};
use std::alloc::Global;

/// A text literal, which is a string.
pub fn literal(alloc: Global, text: &Text) -> Result<TypedExpr, TypeFault>
    ensures { (cs : Seq Class) → Makes cs (spec.formed (exprs.Str text.now) (Ok (Of types.Str))) result }
{
    Ok(TypedExpr::new(alloc, Expr::Str(text.copy(alloc)?), Kind::Str)?)
}

/// A parameter or local, by its name, or rule 16 where none has it.
pub fn local(
    alloc: Global,
    context: &BodyContext,
    locals: &[Local],
    name: &[u8],
) -> Result<TypedExpr, TypeFault>
    requires { AreLocals (classes_at context.now) locals.now }
    ensures { Makes (classes_at context.now) (spec.local_form (names_at (classes_at context.now) locals.now) name.now) result }
{
    match local_of(locals, name) {
        None => Err(TypeFault::Rule(16)),
        Some(place) => {
            let kind = locals[place as usize].kind;
            Ok(TypedExpr::new(alloc, Expr::Local(place), kind)?)
        }
    }
}

/// `self`, of the class whose body it is; main has none, which breaks rule 20.
pub fn me(alloc: Global, context: &BodyContext) -> Result<TypedExpr, TypeFault>
    requires { IsBodyContext context.now }
    ensures { Makes (classes_at context.now) (spec.formed exprs.Me (self_type (place_at context.now))) result }
{
    formed(alloc, Expr::Me, self_kind(&context.known, &context.at))
}

/// A variable of the body's class, by its name, or rule 16 where none has it.
pub fn variable(alloc: Global, context: &BodyContext, name: &[u8]) -> Result<TypedExpr, TypeFault>
    requires { IsBodyContext context.now }
    ensures { Makes (classes_at context.now) (spec.variable_form (place_at context.now) name.now) result }
{
    match variable_place(&context.known, &context.at, name) {
        None => Err(TypeFault::Rule(16)),
        Some(place) => formed(
            alloc,
            Expr::Variable(place),
            variable_kind(&context.known, &context.at, place as usize),
        ),
    }
}

/// A new object of a class by its name, of that class.
pub fn new_object(alloc: Global, context: &BodyContext, name: &[u8]) -> Result<TypedExpr, TypeFault>
    requires { IsBodyContext context.now }
    ensures { Makes (classes_at context.now) (spec.new_form (among_at context.now) name.now) result }
{
    let key = key_of(alloc, context.scope, name)?;
    let kind = new_kind(&context.known, &key);
    let class = Boxed::new(alloc, key)?;
    formed(alloc, Expr::New(class), kind)
}

/// The object that stands for a class, by the class's name; it is of the metaclass.
pub fn class_object(
    alloc: Global,
    context: &BodyContext,
    name: &[u8],
) -> Result<TypedExpr, TypeFault>
    requires { IsBodyContext context.now }
    ensures { Makes (classes_at context.now) (spec.class_form (among_at context.now) name.now) result }
{
    let key = key_of(alloc, context.scope, name)?;
    let kind = class_kind(&context.known, &key);
    let class = Boxed::new(alloc, key)?;
    formed(alloc, Expr::Class(class), kind)
}
