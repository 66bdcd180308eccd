//! Types whole expressions, each part of them once and from left to right.

ghost use Rattle.som_model.specs.Blocks.{is_call};
ghost use Rattle.som_model.specs.Typing as typing;
ghost use Rattle.som_verify_forms.specs.Kinds.{AreTyped, AreTypes, Fails, PlaceStands, Types};
ghost use Rattle.som_verify_forms.specs.Knowing.{IsKnowledge, all_of, typed_by};
ghost use Rattle.som_verify_types.specs.Codes.{IsCode, classes_in, typed_in};
ghost use Rattle.std.specs.Prelude.{◌≡◌, true, IfErr, IfOk, map};

use crate::parts::{
    binary, cast, host, isa, named, named_call, offset_call, parent_call, parents_call, proxy,
    ruled, unary,
};
use som_model::{Expr, List};
use som_verify_classes::SOM_CLASS_MGR;
use som_verify_forms::{
    CodePlace, Kind, Knowledge, TypeFault, class_kind, local_kind, new_kind, self_kind, value,
    variable_kind,
};
use std::alloc::Global;

/// Where expressions stand: what is known, the place of the code, and the kinds of the locals in scope.
#[derive(Clone, Copy)]
pub struct Code<'a> {
    pub known: Knowledge<'a>,
    pub at: CodePlace,
    pub scope: &'a [Kind],
}

/// The kind of an expression, or the lowest rule that its first wrong part breaks. Each part is looked at once.
pub fn expr_kind(
    alloc: Global,
    known: &Knowledge,
    at: &CodePlace,
    scope: &[Kind],
    expr: &Expr,
) -> Result<Kind, TypeFault>
    requires known { IsKnowledge known.now }
    requires place { PlaceStands (all_of known.now) at.now }
    requires scope { AreTypes (all_of known.now) scope.now }
    ensures { Types (all_of known.now) (typed_by known.now at.now scope.now expr.now) result }
{
    let code = Code {
        known: *known,
        at: *at,
        scope,
    };
    kind_in(alloc, &code, expr)
}

/// The kind of an expression that has a value.
pub fn value_kind(
    alloc: Global,
    known: &Knowledge,
    at: &CodePlace,
    scope: &[Kind],
    expr: &Expr,
) -> Result<Kind, TypeFault>
    requires known { IsKnowledge known.now }
    requires place { PlaceStands (all_of known.now) at.now }
    requires scope { AreTypes (all_of known.now) scope.now }
    ensures { Types (all_of known.now) (typing.value (typed_by known.now at.now scope.now expr.now)) result }
{
    Ok(value(expr_kind(alloc, known, at, scope, expr)?)?)
}

#[cycle(kinds)]
fn kind_in(alloc: Global, code: &Code, expr: &Expr) -> Result<Kind, TypeFault>
    requires { IsCode code.now }
    ensures { Types (classes_in code.now) (typed_in code.now expr.now) result }
{
    match expr {
        Expr::Long(_) => Ok(Kind::Long),
        Expr::Str(_) => Ok(Kind::Str),
        Expr::Boolean(_) => Ok(Kind::Boolean),
        Expr::Nil => Ok(Kind::Nil),
        Expr::Local(place) => named(local_kind(code.scope, *place as usize)),
        Expr::Me => ruled(self_kind(&code.known, &code.at)),
        Expr::Variable(place) => named(variable_kind(&code.known, &code.at, *place as usize)),
        Expr::Unary { op, of } => unary(*op, value_in(alloc, code, of.get())),
        Expr::Binary { op, left, right } => {
            let left = value_in(alloc, code, left.get())?;
            binary(*op, left, value_in(alloc, code, right.get()))
        }
        Expr::New(class) => ruled(new_kind(&code.known, class.get())),
        Expr::Class(class) => ruled(class_kind(&code.known, class.get())),
        Expr::Manager => Ok(Kind::Class(SOM_CLASS_MGR)),
        Expr::Cast { class, of } => cast(code, class, value_in(alloc, code, of.get())),
        Expr::Isa { class, of } => isa(code, class, value_in(alloc, code, of.get())),
        Expr::Proxy { class, of } => proxy(code, class, value_in(alloc, code, of.get())),
        Expr::Host { a, b, .. } => {
            let left = value_in(alloc, code, a.get())?;
            host(left, value_in(alloc, code, b.get()))
        }
        call => call_in(alloc, code, call),
    }
}

// The kind of a call, or the rule that its first wrong part breaks.
#[cycle(kinds)]
fn call_in(alloc: Global, code: &Code, call: &Expr) -> Result<Kind, TypeFault>
    requires code { IsCode code.now }
    requires call { is_call call.now ≡ true }
    ensures { Types (classes_in code.now) (typed_in code.now call.now) result }
{
    match call {
        Expr::OffsetCall {
            method,
            receiver,
            args,
        } => {
            let receiver = value_in(alloc, code, receiver.get())?;
            offset_call(code, method, receiver, values_in(alloc, code, args))
        }
        Expr::Lookup {
            result: answer,
            receiver,
            args,
            ..
        } => {
            let receiver = value_in(alloc, code, receiver.get())?;
            named_call(code, answer, receiver, values_in(alloc, code, args))
        }
        Expr::Dispatch {
            result: answer,
            receiver,
            args,
            ..
        } => {
            let receiver = value_in(alloc, code, receiver.get())?;
            named_call(code, answer, receiver, values_in(alloc, code, args))
        }
        Expr::ParentCall {
            parent,
            method,
            args,
        } => parent_call(code, *parent as usize, method, values_in(alloc, code, args)),
        Expr::ParentsCall { method, args } => {
            parents_call(code, method, values_in(alloc, code, args))
        }
        _ => unreachable!(),
    }
}

#[cycle(kinds)]
fn value_in(alloc: Global, code: &Code, expr: &Expr) -> Result<Kind, TypeFault>
    requires { IsCode code.now }
    ensures { Types (classes_in code.now) (typing.value (typed_in code.now expr.now)) result }
{
    ruled(value(kind_in(alloc, code, expr)?))
}

// The kinds of arguments, each of which has a value.
#[cycle(kinds)]
fn values_in(alloc: Global, code: &Code, args: &List<Expr>) -> Result<Vec<Kind>, TypeFault>
    requires { IsCode code.now }
    ensures kinds { IfOk result (λ kinds. AreTyped (classes_in code.now) (typing.values (map (typed_in code.now) args.now)) kinds.items) }
    ensures fault { IfErr result (Fails (typing.values (map (typed_in code.now) args.now))) }
{
    let mut kinds = Vec::new(alloc);
    for arg in args.as_slice() {
        kinds.push(value_in(alloc, code, arg)?)?;
    }
    Ok(kinds)
}
