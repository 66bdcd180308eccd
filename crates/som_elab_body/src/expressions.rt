//! The type checker of expressions: from a syntax tree to a named and typed expression.

ghost use Rattle.som_elab_body.specs.Code.{AreLocals, IsBodyContext, Makes, among_at, classes_at, names_at, place_at, typed_at};
ghost use Rattle.som_elab_body.specs.Expressions as spec;
ghost use Rattle.som_elab_body.specs.Expressions.{elaborated, elaborated_value, part, parts};
ghost use Rattle.som_elab_body.specs.Forms.{AreMade, elab_at, of_all, of_one};
ghost use Rattle.som_elab_body.specs.Groups.{is_class_operation, is_inherited_call, is_method_call, is_operation};
ghost use Rattle.som_verify_forms.specs.Kinds.{Fails, Stands};
ghost use Rattle.std.specs.Prelude.{◌≡◌, true, IfErr, IfOk, map};

use crate::body_context::BodyContext;
use crate::calls::{call, dispatch_call, lookup_call};
use crate::leaves::{class_object, literal, local, me, new_object, variable};
use crate::local::Local;
use crate::operators::{binary, cast, host, isa, proxy, unary};
use crate::parent_calls::{parent_call, parents_call};
use crate::parts::{Parts, add, no_parts, valued};
use crate::typed_expr::TypedExpr;
use som_ast::{ExprText, TypeName};
use som_model::{Boxed, Expr, HostCode, List, Text};
use som_verify_classes::SOM_CLASS_MGR;
use som_verify_forms::{Kind, TypeFault};
use std::alloc::Global;

/// The named expression that a text stands for, void included, or the lowest rule that its first wrong part breaks.
#[cycle(texts)]
pub fn expression(
    alloc: Global,
    context: &BodyContext,
    locals: &[Local],
    text: &ExprText,
) -> Result<TypedExpr, TypeFault>
    requires context { IsBodyContext context.now }
    requires locals { AreLocals (classes_at context.now) locals.now }
    ensures { Makes (classes_at context.now) (elaborated (among_at context.now) (place_at context.now) (names_at (classes_at context.now) locals.now) text.now) result }
{
    match text {
        ExprText::Number(number) => Ok(TypedExpr::new(
            alloc,
            Expr::Long(number.cast_signed()),
            Kind::Long,
        )?),
        ExprText::Literal(value) => literal(alloc, value),
        ExprText::Boolean(value) => Ok(TypedExpr::new(
            alloc,
            Expr::Boolean(*value),
            Kind::Boolean,
        )?),
        ExprText::Nil => Ok(TypedExpr::new(alloc, Expr::Nil, Kind::Nil)?),
        ExprText::Name(word) => local(alloc, context, locals, word.text.as_slice()),
        ExprText::Me => me(alloc, context),
        ExprText::Variable(word) => variable(alloc, context, word.text.as_slice()),
        ExprText::New(word) => new_object(alloc, context, word.text.as_slice()),
        ExprText::Class(word) => class_object(alloc, context, word.text.as_slice()),
        ExprText::Manager => Ok(TypedExpr::new(alloc, Expr::Manager, Kind::Class(SOM_CLASS_MGR))?),
        ExprText::Unary { .. } | ExprText::Binary { .. } | ExprText::Host { .. } => {
            operation(alloc, context, locals, text)
        }
        ExprText::Cast { .. } | ExprText::Isa { .. } | ExprText::Proxy { .. } => {
            class_operation(alloc, context, locals, text)
        }
        ExprText::Call { .. } | ExprText::Lookup { .. } | ExprText::Dispatch { .. } => {
            method_call(alloc, context, locals, text)
        }
        ExprText::Parent { .. } | ExprText::Parents { .. } => {
            inherited_call(alloc, context, locals, text)
        }
    }
}

// An operator, or a function of the host.
#[cycle(texts)]
fn operation(
    alloc: Global,
    context: &BodyContext,
    locals: &[Local],
    text: &ExprText,
) -> Result<TypedExpr, TypeFault>
    requires context { IsBodyContext context.now }
    requires locals { AreLocals (classes_at context.now) locals.now }
    requires form { is_operation text.now ≡ true }
    ensures { Makes (classes_at context.now) (elab_at context.now locals.now text.now) result }
{
    match text {
        ExprText::Unary { op, of } => unary_text(alloc, context, locals, of, *op),
        ExprText::Binary { op, left, right } => {
            let left = value_expression(alloc, context, locals, left.get())?;
            binary_text(alloc, context, locals, right, *op, left)
        }
        ExprText::Host { code, a, b } => {
            let left = value_expression(alloc, context, locals, a.get())?;
            host_text(alloc, context, locals, b, *code, left)
        }
        _ => unreachable!(),
    }
}

// What is asked of a part and a class.
#[cycle(texts)]
fn class_operation(
    alloc: Global,
    context: &BodyContext,
    locals: &[Local],
    text: &ExprText,
) -> Result<TypedExpr, TypeFault>
    requires context { IsBodyContext context.now }
    requires locals { AreLocals (classes_at context.now) locals.now }
    requires form { is_class_operation text.now ≡ true }
    ensures { Makes (classes_at context.now) (elab_at context.now locals.now text.now) result }
{
    match text {
        ExprText::Cast { class, of } => {
            cast_text(alloc, context, locals, of, class.text.as_slice())
        }
        ExprText::Isa { class, of } => isa_text(alloc, context, locals, of, class.text.as_slice()),
        ExprText::Proxy { class, of } => {
            proxy_text(alloc, context, locals, of, class.text.as_slice())
        }
        _ => unreachable!(),
    }
}

// A call on a receiver, which comes before the arguments.
#[cycle(texts)]
fn method_call(
    alloc: Global,
    context: &BodyContext,
    locals: &[Local],
    text: &ExprText,
) -> Result<TypedExpr, TypeFault>
    requires context { IsBodyContext context.now }
    requires locals { AreLocals (classes_at context.now) locals.now }
    requires form { is_method_call text.now ≡ true }
    ensures { Makes (classes_at context.now) (elab_at context.now locals.now text.now) result }
{
    match text {
        ExprText::Call {
            receiver,
            method,
            args,
        } => {
            let receiver = value_expression(alloc, context, locals, receiver.get())?;
            call_text(alloc, context, locals, args, receiver, &method.text)
        }
        ExprText::Lookup {
            result: answer,
            receiver,
            method,
            args,
        } => {
            let on = value_expression(alloc, context, locals, receiver.get())?;
            lookup_text(alloc, context, locals, args, answer, on, &method.text)
        }
        ExprText::Dispatch {
            result: answer,
            receiver,
            method,
            args,
        } => {
            let on = value_expression(alloc, context, locals, receiver.get())?;
            dispatch_text(alloc, context, locals, args, answer, on, &method.text)
        }
        _ => unreachable!(),
    }
}

// A call of what a parent has, or all parents have.
#[cycle(texts)]
fn inherited_call(
    alloc: Global,
    context: &BodyContext,
    locals: &[Local],
    text: &ExprText,
) -> Result<TypedExpr, TypeFault>
    requires context { IsBodyContext context.now }
    requires locals { AreLocals (classes_at context.now) locals.now }
    requires form { is_inherited_call text.now ≡ true }
    ensures { Makes (classes_at context.now) (elab_at context.now locals.now text.now) result }
{
    match text {
        ExprText::Parent {
            parent,
            method,
            args,
        } => parent_text(
            alloc,
            context,
            locals,
            args,
            parent.text.as_slice(),
            &method.text,
        ),
        ExprText::Parents { method, args } => {
            parents_text(alloc, context, locals, args, &method.text)
        }
        _ => unreachable!(),
    }
}

/// The named expression of a text that has to have a value, or the lowest rule that its first wrong part breaks.
#[cycle(texts)]
pub fn value_expression(
    alloc: Global,
    context: &BodyContext,
    locals: &[Local],
    text: &ExprText,
) -> Result<TypedExpr, TypeFault>
    requires context { IsBodyContext context.now }
    requires locals { AreLocals (classes_at context.now) locals.now }
    ensures { Makes (classes_at context.now) (elaborated_value (among_at context.now) (place_at context.now) (names_at (classes_at context.now) locals.now) text.now) result }
{
    let made = expression(alloc, context, locals, text)?;
    valued(made)
}

// The parts of an expression, each of which has a value.
#[cycle(texts)]
fn parts_of_texts(
    alloc: Global,
    context: &BodyContext,
    locals: &[Local],
    texts: &List<ExprText>,
) -> Result<Parts, TypeFault>
    requires context { IsBodyContext context.now }
    requires locals { AreLocals (classes_at context.now) locals.now }
    ensures made { IfOk result (AreMade (classes_at context.now) (parts (map (elab_at context.now locals.now) texts.now))) }
    ensures fault { IfErr result (Fails (parts (map (elab_at context.now locals.now) texts.now))) }
{
    let mut made = no_parts(alloc);
    for text in texts.as_slice() {
        let one = value_expression(alloc, context, locals, text)?;
        add(&mut made, one)?;
    }
    Ok(made)
}

#[cycle(texts)]
fn unary_text(
    alloc: Global,
    context: &BodyContext,
    locals: &[Local],
    of: &Boxed<ExprText>,
    op: u8,
) -> Result<TypedExpr, TypeFault>
    requires context { IsBodyContext context.now }
    requires locals { AreLocals (classes_at context.now) locals.now }
    ensures { Makes (classes_at context.now) (of_one (elab_at context.now locals.now of.now) (spec.unary_form op)) result }
{
    let part = value_expression(alloc, context, locals, of.get())?;
    unary(alloc, op, part)
}

#[cycle(texts)]
fn binary_text(
    alloc: Global,
    context: &BodyContext,
    locals: &[Local],
    right: &Boxed<ExprText>,
    op: u8,
    left: TypedExpr,
) -> Result<TypedExpr, TypeFault>
    requires context { IsBodyContext context.now }
    requires locals { AreLocals (classes_at context.now) locals.now }
    requires left { Stands (classes_at context.now) left.kind }
    ensures { Makes (classes_at context.now) (of_one (elab_at context.now locals.now right.now) (spec.binary_form op (typed_at (classes_at context.now) left))) result }
{
    let right = value_expression(alloc, context, locals, right.get())?;
    binary(alloc, op, left, right)
}

#[cycle(texts)]
fn host_text(
    alloc: Global,
    context: &BodyContext,
    locals: &[Local],
    right: &Boxed<ExprText>,
    code: HostCode,
    left: TypedExpr,
) -> Result<TypedExpr, TypeFault>
    requires context { IsBodyContext context.now }
    requires locals { AreLocals (classes_at context.now) locals.now }
    requires left { Stands (classes_at context.now) left.kind }
    ensures { Makes (classes_at context.now) (of_one (elab_at context.now locals.now right.now) (spec.host_form code (typed_at (classes_at context.now) left))) result }
{
    let right = value_expression(alloc, context, locals, right.get())?;
    host(alloc, code, left, right)
}

#[cycle(texts)]
fn cast_text(
    alloc: Global,
    context: &BodyContext,
    locals: &[Local],
    of: &Boxed<ExprText>,
    class: &[u8],
) -> Result<TypedExpr, TypeFault>
    requires context { IsBodyContext context.now }
    requires locals { AreLocals (classes_at context.now) locals.now }
    ensures { Makes (classes_at context.now) (of_one (elab_at context.now locals.now of.now) (spec.cast_form (among_at context.now) class.now)) result }
{
    let part = value_expression(alloc, context, locals, of.get())?;
    cast(alloc, context, class, part)
}

#[cycle(texts)]
fn isa_text(
    alloc: Global,
    context: &BodyContext,
    locals: &[Local],
    of: &Boxed<ExprText>,
    class: &[u8],
) -> Result<TypedExpr, TypeFault>
    requires context { IsBodyContext context.now }
    requires locals { AreLocals (classes_at context.now) locals.now }
    ensures { Makes (classes_at context.now) (of_one (elab_at context.now locals.now of.now) (spec.isa_form (among_at context.now) class.now)) result }
{
    let part = value_expression(alloc, context, locals, of.get())?;
    isa(alloc, context, class, part)
}

#[cycle(texts)]
fn proxy_text(
    alloc: Global,
    context: &BodyContext,
    locals: &[Local],
    of: &Boxed<ExprText>,
    class: &[u8],
) -> Result<TypedExpr, TypeFault>
    requires context { IsBodyContext context.now }
    requires locals { AreLocals (classes_at context.now) locals.now }
    ensures { Makes (classes_at context.now) (of_one (elab_at context.now locals.now of.now) (spec.proxy_form (among_at context.now) class.now)) result }
{
    let part = value_expression(alloc, context, locals, of.get())?;
    proxy(alloc, context, class, part)
}

#[cycle(texts)]
fn call_text(
    alloc: Global,
    context: &BodyContext,
    locals: &[Local],
    args: &List<ExprText>,
    on: TypedExpr,
    name: &Text,
) -> Result<TypedExpr, TypeFault>
    requires context { IsBodyContext context.now }
    requires locals { AreLocals (classes_at context.now) locals.now }
    requires on { Stands (classes_at context.now) on.kind }
    ensures { Makes (classes_at context.now) (of_all (map (elab_at context.now locals.now) args.now) (spec.call_form (among_at context.now) (typed_at (classes_at context.now) on) name.now)) result }
{
    let args = parts_of_texts(alloc, context, locals, args)?;
    call(alloc, context, on, name, args)
}

#[cycle(texts)]
fn lookup_text(
    alloc: Global,
    context: &BodyContext,
    locals: &[Local],
    args: &List<ExprText>,
    answer: &Option<TypeName>,
    on: TypedExpr,
    name: &Text,
) -> Result<TypedExpr, TypeFault>
    requires context { IsBodyContext context.now }
    requires locals { AreLocals (classes_at context.now) locals.now }
    requires on { Stands (classes_at context.now) on.kind }
    ensures { Makes (classes_at context.now) (of_all (map (elab_at context.now locals.now) args.now) (spec.lookup_form (among_at context.now) answer.now (typed_at (classes_at context.now) on) name.now)) result }
{
    let args = parts_of_texts(alloc, context, locals, args)?;
    lookup_call(alloc, context, answer, on, name, args)
}

#[cycle(texts)]
fn dispatch_text(
    alloc: Global,
    context: &BodyContext,
    locals: &[Local],
    args: &List<ExprText>,
    answer: &Option<TypeName>,
    on: TypedExpr,
    name: &Text,
) -> Result<TypedExpr, TypeFault>
    requires context { IsBodyContext context.now }
    requires locals { AreLocals (classes_at context.now) locals.now }
    requires on { Stands (classes_at context.now) on.kind }
    ensures { Makes (classes_at context.now) (of_all (map (elab_at context.now locals.now) args.now) (spec.dispatch_form (among_at context.now) answer.now (typed_at (classes_at context.now) on) name.now)) result }
{
    let args = parts_of_texts(alloc, context, locals, args)?;
    dispatch_call(alloc, context, answer, on, name, args)
}

#[cycle(texts)]
fn parent_text(
    alloc: Global,
    context: &BodyContext,
    locals: &[Local],
    args: &List<ExprText>,
    parent: &[u8],
    name: &Text,
) -> Result<TypedExpr, TypeFault>
    requires context { IsBodyContext context.now }
    requires locals { AreLocals (classes_at context.now) locals.now }
    ensures { Makes (classes_at context.now) (of_all (map (elab_at context.now locals.now) args.now) (spec.parent_form (among_at context.now) (place_at context.now) parent.now name.now)) result }
{
    let args = parts_of_texts(alloc, context, locals, args)?;
    parent_call(alloc, context, parent, name, args)
}

#[cycle(texts)]
fn parents_text(
    alloc: Global,
    context: &BodyContext,
    locals: &[Local],
    args: &List<ExprText>,
    name: &Text,
) -> Result<TypedExpr, TypeFault>
    requires context { IsBodyContext context.now }
    requires locals { AreLocals (classes_at context.now) locals.now }
    ensures { Makes (classes_at context.now) (of_all (map (elab_at context.now locals.now) args.now) (spec.parents_form (among_at context.now) (place_at context.now) name.now)) result }
{
    let args = parts_of_texts(alloc, context, locals, args)?;
    parents_call(alloc, context, name, args)
}
