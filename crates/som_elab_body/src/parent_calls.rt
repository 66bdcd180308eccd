//! Type checking of calls of the method that one parent, or all parents, have.

ghost use Rattle.som_verify_classes.specs.Places.{key_at};
ghost use Rattle.som_elab_body.specs.Code.{IsBodyContext, Makes, among_at, classes_at, place_at};
ghost use Rattle.som_elab_body.specs.Expressions as spec;
ghost use Rattle.som_elab_body.specs.Forms.{AreParts, facts_at, parent_by, parent_from, parents_by, parts_at};
ghost use Rattle.som_elab_body.specs.Methods as methods;
ghost use Rattle.som_verify_forms.specs.Kinds.{PlaceStands, code_at};
ghost use Rattle.som_verify_forms.specs.Knowing.{IsKnowledge, all_of};
ghost use Rattle.std.specs.Prelude.{◌≡◌, ◌<◌, length, is_some, true};

use crate::body_context::BodyContext;
use crate::methods::{method_of, method_ref, own_method};
use crate::names::parent_place;
use crate::parts::{Parts, formed};
use crate::typed_expr::TypedExpr;
use som_model::{Boxed, ClassKey, Expr, Text};
use som_sema_scope::key_of;
use som_verify_forms::{
    CodePlace, Knowledge, TypeFault, parent_call_kind, parents_call_kind, place_of,
};
use std::alloc::Global;

/// A call of the method that a parent of the body's class has.
pub fn parent_call(
    alloc: Global,
    context: &BodyContext,
    parent: &[u8],
    name: &Text,
    args: Parts,
) -> Result<TypedExpr, TypeFault>
    requires context { IsBodyContext context.now }
    requires args { AreParts (classes_at context.now) args }
    ensures { Makes (classes_at context.now) (spec.parent_form (among_at context.now) (place_at context.now) parent.now name.now (parts_at (classes_at context.now) args)) result }
{
    let key = key_of(alloc, context.scope, parent)?;
    match parent_place(&context.known, &context.at, &key) {
        None => Err(TypeFault::Rule(16)),
        Some(number) => call_parent(alloc, context, number, &key, name, args),
    }
}

// A call of the method that a parent has, by the parent's key and its place.
fn call_parent(
    alloc: Global,
    context: &BodyContext,
    number: u8,
    parent: &ClassKey,
    name: &Text,
    args: Parts,
) -> Result<TypedExpr, TypeFault>
    requires context { IsBodyContext context.now }
    requires parent { is_some (methods.parent_place (place_at context.now).class parent.now) ≡ true }
    requires args { AreParts (classes_at context.now) args }
    ensures { Makes (classes_at context.now) (parent_from (among_at context.now) (place_at context.now) parent.now name.now (parts_at (classes_at context.now) args) number) result }
{
    let class = class_of_parent(&context.known, &context.at, parent);
    match method_of(&context.known, &context.search, class, name) {
        None => Err(TypeFault::Rule(16)),
        Some(method) => call_at(alloc, context, number, name, args, method.class),
    }
}

// The place of a class that is a parent of the body's class.
fn class_of_parent(known: &Knowledge, at: &CodePlace, parent: &ClassKey) -> usize
    requires known { IsKnowledge known.now }
    requires place { PlaceStands (all_of known.now) at.now }
    requires parent { is_some (methods.parent_place (code_at (all_of known.now) at.now).class parent.now) ≡ true }
    ensures is { key_at (all_of known.now) result ≡ parent.now }
    ensures stands { result < length (all_of known.now) }
{
    match place_of(known, parent) {
        Some(place) => place,
        None => unreachable!(),
    }
}

fn call_at(
    alloc: Global,
    context: &BodyContext,
    number: u8,
    name: &Text,
    args: Parts,
    class: usize,
) -> Result<TypedExpr, TypeFault>
    requires context { IsBodyContext context.now }
    requires args { AreParts (classes_at context.now) args }
    requires class { class < length (classes_at context.now) }
    ensures { Makes (classes_at context.now) (parent_by (facts_at context.now) (place_at context.now) number
        (record { class = key_at (classes_at context.now) class; name = name.now }) (parts_at (classes_at context.now) args)) result }
{
    let found = method_ref(alloc, &context.known, class, name)?;
    let Parts { exprs, kinds } = args;
    let kind = parent_call_kind(
        &context.known,
        &context.at,
        number as usize,
        &found,
        kinds.as_slice(),
    );
    let method = Boxed::new(alloc, found)?;
    formed(
        alloc,
        Expr::ParentCall {
            parent: number,
            method,
            args: exprs,
        },
        kind,
    )
}

/// A call of the method that all parents have.
pub fn parents_call(
    alloc: Global,
    context: &BodyContext,
    name: &Text,
    args: Parts,
) -> Result<TypedExpr, TypeFault>
    requires context { IsBodyContext context.now }
    requires args { AreParts (classes_at context.now) args }
    ensures { Makes (classes_at context.now) (spec.parents_form (among_at context.now) (place_at context.now) name.now (parts_at (classes_at context.now) args)) result }
{
    match own_method(&context.known, &context.search, &context.at, name) {
        None => Err(TypeFault::Rule(16)),
        Some(method) => call_all(alloc, context, name, args, method.class),
    }
}

fn call_all(
    alloc: Global,
    context: &BodyContext,
    name: &Text,
    args: Parts,
    class: usize,
) -> Result<TypedExpr, TypeFault>
    requires context { IsBodyContext context.now }
    requires args { AreParts (classes_at context.now) args }
    requires class { class < length (classes_at context.now) }
    ensures { Makes (classes_at context.now) (parents_by (facts_at context.now) (place_at context.now)
        (record { class = key_at (classes_at context.now) class; name = name.now }) (parts_at (classes_at context.now) args)) result }
{
    let found = method_ref(alloc, &context.known, class, name)?;
    let Parts { exprs, kinds } = args;
    let kind = parents_call_kind(&context.known, &context.at, &found, kinds.as_slice());
    let method = Boxed::new(alloc, found)?;
    formed(
        alloc,
        Expr::ParentsCall {
            method,
            args: exprs,
        },
        kind,
    )
}
