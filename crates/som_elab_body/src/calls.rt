//! Type checking of calls on a receiver: by offset, by name lookup and by dispatch.

ghost use Rattle.som_model.specs.declared.class.Way.TheVariants as ways;
ghost use Rattle.som_model.specs.Typing as typing;
ghost use Rattle.som_verify_classes.specs.Places.{key_at};
ghost use Rattle.som_elab_body.specs.Code.{IsBodyContext, Makes, among_at, classes_at, typed_at};
ghost use Rattle.som_elab_body.specs.Expressions as spec;
ghost use Rattle.som_elab_body.specs.Forms.{AreParts, dispatch_by, facts_at, lookup_by, method_at, offset_by, parts_at};
ghost use Rattle.som_elab_body.specs.Methods.{method_for as method_of_type};
ghost use Rattle.som_verify_forms.specs.Kinds.{AllStand, Comes, Stands, kind_at};
ghost use Rattle.som_verify_forms.specs.Knowing.{IsKnowledge, all_of, facts_of, sig_is_known};
ghost use Rattle.std.specs.Prelude.{◌≡◌, ◌<◌, true, length, map, Ok, Some};

use crate::body_context::BodyContext;
use crate::methods::{FoundMethod, method_for, method_ref};
use crate::parts::{Parts, formed};
use crate::typed_expr::TypedExpr;
use som_ast::TypeName;
use som_model::{Boxed, Expr, Sig, Text, ValueType, Way};
use som_sema_scope::result_of;
use som_verify_forms::{Kind, Knowledge, TypeFault, all_fit, known_kind, named_call_kind};
use std::alloc::Global;

/// A call of the method that the receiver has.
pub fn call(
    alloc: Global,
    context: &BodyContext,
    on: TypedExpr,
    name: &Text,
    args: Parts,
) -> Result<TypedExpr, TypeFault>
    requires context { IsBodyContext context.now }
    requires on { Stands (classes_at context.now) on.kind }
    requires args { AreParts (classes_at context.now) args }
    ensures { Makes (classes_at context.now) (spec.call_form (among_at context.now) (typed_at (classes_at context.now) on) name.now (parts_at (classes_at context.now) args)) result }
{
    match method_for(&context.known, &context.search, on.kind, name) {
        None => Err(TypeFault::Rule(16)),
        Some(method) => call_found(alloc, context, on, name, args, &method),
    }
}

// A call of a method in the way in which it is called.
fn call_found(
    alloc: Global,
    context: &BodyContext,
    on: TypedExpr,
    name: &Text,
    args: Parts,
    method: &FoundMethod,
) -> Result<TypedExpr, TypeFault>
    requires context { IsBodyContext context.now }
    requires on { Stands (classes_at context.now) on.kind }
    requires args { AreParts (classes_at context.now) args }
    requires class { method.now.class < length (classes_at context.now) }
    requires found { method_of_type (classes_at context.now) (kind_at (classes_at context.now) on.kind) name.now ≡ Some (method_at (classes_at context.now) name.now method.now) }
    ensures { Makes (classes_at context.now) (spec.called_by (facts_at context.now) (typed_at (classes_at context.now) on) (parts_at (classes_at context.now) args)
        (method_at (classes_at context.now) name.now method.now) method.now.way) result }
{
    match method.way {
        Way::Offset => offset_call(alloc, context, on, name, args, method),
        Way::Lookup => fitting_lookup(alloc, context, on, name, args, method),
    }
}

// A call by offset of the method that the receiver has: its class descends from the one that introduces the method, so the
// arguments alone are looked at.
fn offset_call(
    alloc: Global,
    context: &BodyContext,
    on: TypedExpr,
    name: &Text,
    args: Parts,
    method: &FoundMethod,
) -> Result<TypedExpr, TypeFault>
    requires context { IsBodyContext context.now }
    requires args { AreParts (classes_at context.now) args }
    requires class { method.now.class < length (classes_at context.now) }
    requires found { method_of_type (classes_at context.now) (kind_at (classes_at context.now) on.kind) name.now ≡ Some (method_at (classes_at context.now) name.now method.now) }
    ensures { Makes (classes_at context.now) (offset_by (facts_at context.now) (record { class = key_at (classes_at context.now) method.now.class; name = name.now })
        (typed_at (classes_at context.now) on) (parts_at (classes_at context.now) args)) result }
{
    let found = method_ref(alloc, &context.known, method.class, name)?;
    let TypedExpr { expr, .. } = on;
    let Parts { exprs, kinds } = args;
    let kind = answer_kind(&context.known, method.sig, kinds.as_slice());
    let method = Boxed::new(alloc, found)?;
    let receiver = expr;
    formed(
        alloc,
        Expr::OffsetCall {
            method,
            receiver,
            args: exprs,
        },
        kind,
    )
}

// What a method of a known signature answers whose arguments fit; else S18 is broken.
fn answer_kind(known: &Knowledge, sig: &Sig, args: &[Kind]) -> Result<Kind, u8>
    requires known { IsKnowledge known.now }
    requires sig { sig_is_known (all_of known.now) sig.now ≡ true }
    requires args { AllStand (all_of known.now) args.now }
    ensures { Comes (all_of known.now) (typing.needs 18 (typing.all_fit (facts_of known.now) sig.now.params (map (kind_at (all_of known.now)) args.now))
        (Ok (typing.Of sig.now.result))) result }
{
    if all_fit(known, sig.params.as_slice(), args) {
        Ok(known_kind(known, &sig.result))
    } else {
        Err(18)
    }
}

// A call by name of a method that was declared so, whose arguments fit its signature.
fn fitting_lookup(
    alloc: Global,
    context: &BodyContext,
    on: TypedExpr,
    name: &Text,
    args: Parts,
    method: &FoundMethod,
) -> Result<TypedExpr, TypeFault>
    requires context { IsBodyContext context.now }
    requires on { Stands (classes_at context.now) on.kind }
    requires args { AreParts (classes_at context.now) args }
    ensures { Makes (classes_at context.now) (spec.called_by (facts_at context.now) (typed_at (classes_at context.now) on) (parts_at (classes_at context.now) args)
        (method_at (classes_at context.now) name.now method.now) ways.Lookup) result }
{
    let sig = method.sig;
    if all_fit(&context.known, sig.params.as_slice(), args.kinds.as_slice()) {
        let name = name.copy_boxed(alloc)?;
        let answer = sig.result.copy_boxed(alloc)?;
        lookup(alloc, context, answer, on, name, args)
    } else {
        Err(TypeFault::Rule(18))
    }
}

// A call by name of a method that answers a type.
fn lookup(
    alloc: Global,
    context: &BodyContext,
    answer: Boxed<ValueType>,
    on: TypedExpr,
    name: Boxed<Text>,
    args: Parts,
) -> Result<TypedExpr, TypeFault>
    requires context { IsBodyContext context.now }
    requires on { Stands (classes_at context.now) on.kind }
    requires args { AreParts (classes_at context.now) args }
    ensures { Makes (classes_at context.now) (lookup_by (facts_at context.now) answer (typed_at (classes_at context.now) on) name (parts_at (classes_at context.now) args)) result }
{
    let TypedExpr { expr, kind } = on;
    let Parts { exprs, kinds } = args;
    let kind = named_call_kind(&context.known, answer.get(), kind, kinds.as_slice());
    let receiver = expr;
    formed(
        alloc,
        Expr::Lookup {
            result: answer,
            name,
            receiver,
            args: exprs,
        },
        kind,
    )
}

/// A call by name of a method that answers what is written.
pub fn lookup_call(
    alloc: Global,
    context: &BodyContext,
    answer: &Option<TypeName>,
    on: TypedExpr,
    name: &Text,
    args: Parts,
) -> Result<TypedExpr, TypeFault>
    requires context { IsBodyContext context.now }
    requires on { Stands (classes_at context.now) on.kind }
    requires args { AreParts (classes_at context.now) args }
    ensures { Makes (classes_at context.now) (spec.lookup_form (among_at context.now) answer.now (typed_at (classes_at context.now) on) name.now (parts_at (classes_at context.now) args)) result }
{
    let name = name.copy_boxed(alloc)?;
    let result = result_of(alloc, context.scope, answer)?;
    let answer = Boxed::new(alloc, result)?;
    lookup(alloc, context, answer, on, name, args)
}

/// A call by dispatch of a method that answers what is written.
pub fn dispatch_call(
    alloc: Global,
    context: &BodyContext,
    answer: &Option<TypeName>,
    on: TypedExpr,
    name: &Text,
    args: Parts,
) -> Result<TypedExpr, TypeFault>
    requires context { IsBodyContext context.now }
    requires on { Stands (classes_at context.now) on.kind }
    requires args { AreParts (classes_at context.now) args }
    ensures { Makes (classes_at context.now) (spec.dispatch_form (among_at context.now) answer.now (typed_at (classes_at context.now) on) name.now (parts_at (classes_at context.now) args)) result }
{
    let name = name.copy_boxed(alloc)?;
    let result = result_of(alloc, context.scope, answer)?;
    let answer = Boxed::new(alloc, result)?;
    dispatch(alloc, context, answer, on, name, args)
}

// A call by dispatch of a method that answers a type.
fn dispatch(
    alloc: Global,
    context: &BodyContext,
    answer: Boxed<ValueType>,
    on: TypedExpr,
    name: Boxed<Text>,
    args: Parts,
) -> Result<TypedExpr, TypeFault>
    requires context { IsBodyContext context.now }
    requires on { Stands (classes_at context.now) on.kind }
    requires args { AreParts (classes_at context.now) args }
    ensures { Makes (classes_at context.now) (dispatch_by (facts_at context.now) answer (typed_at (classes_at context.now) on) name (parts_at (classes_at context.now) args)) result }
{
    let TypedExpr { expr, kind } = on;
    let Parts { exprs, kinds } = args;
    let kind = named_call_kind(&context.known, answer.get(), kind, kinds.as_slice());
    let receiver = expr;
    formed(
        alloc,
        Expr::Dispatch {
            result: answer,
            name,
            receiver,
            args: exprs,
        },
        kind,
    )
}
