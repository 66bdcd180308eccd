//! Turns expressions with names to expressions of an image.

ghost use Rattle.som_image_decode.specs.Forms.{is_operation, is_receiver_call};
ghost use Rattle.som_image_decode.specs.Tests.{all_found};
ghost use Rattle.som_image_encode.specs.FoundNames.{expr_found};
ghost use Rattle.som_image_encode.specs.Numbering.{IsDirectory};
ghost use Rattle.som_image_encode.specs.NumberedBlocks.{expr_numbered};
ghost use Rattle.som_order.specs.Names.{texts};
ghost use Rattle.std.specs.List.{list_all};
ghost use Rattle.std.specs.Prelude.{◌≡◌, true, map, IfOk};

use crate::found::{number_class, number_kind, number_method};
use indexmap::IndexSet;
use som_image_decode::Directory;
use som_image_fields::WireExpr;
use som_model::{Boxed, Expr, List, NoMemory};
use std::alloc::Global;

/// The expression of an image that stands for an expression.
#[cycle(numbered_expr)]
pub(crate) fn number_expr(
    alloc: Global,
    directory: &Directory,
    names: &IndexSet<&[u8]>,
    expr: &Expr,
) -> Result<WireExpr, NoMemory>
    requires directory { IsDirectory (texts names.now.keys) directory.now }
    requires found { expr_found directory.now expr.now ≡ true }
    ensures { IfOk result (λ numbered. numbered ≡ expr_numbered directory.now expr.now) }
{
    match expr {
        Expr::Long(number) => Ok(WireExpr::Long(*number)),
        Expr::Str(text) => Ok(WireExpr::Str(text.copy(alloc)?)),
        Expr::Boolean(truth) => Ok(WireExpr::Boolean(*truth)),
        Expr::Nil => Ok(WireExpr::Nil),
        Expr::Local(local) => Ok(WireExpr::Local(*local)),
        Expr::Me => Ok(WireExpr::Me),
        Expr::Variable(variable) => Ok(WireExpr::Variable(*variable)),
        Expr::Unary { .. } => number_operation(alloc, directory, names, expr),
        Expr::Binary { .. } => number_operation(alloc, directory, names, expr),
        Expr::New(class) => Ok(WireExpr::New(number_class(directory, names, class.get()))),
        Expr::Class(class) => Ok(WireExpr::Class(number_class(directory, names, class.get()))),
        Expr::Manager => Ok(WireExpr::Manager),
        Expr::Cast { .. } => number_operation(alloc, directory, names, expr),
        Expr::Isa { .. } => number_operation(alloc, directory, names, expr),
        Expr::Proxy { .. } => number_operation(alloc, directory, names, expr),
        Expr::OffsetCall { .. } => number_receiver_call(alloc, directory, names, expr),
        Expr::Lookup { .. } => number_receiver_call(alloc, directory, names, expr),
        Expr::Dispatch { .. } => number_receiver_call(alloc, directory, names, expr),
        Expr::ParentCall {
            parent,
            method,
            args,
        } => Ok(WireExpr::ParentCall {
            parent: *parent,
            method: number_method(directory, names, method.get()),
            args: number_exprs(alloc, directory, names, args)?,
        }),
        Expr::ParentsCall { method, args } => Ok(WireExpr::ParentsCall {
            method: number_method(directory, names, method.get()),
            args: number_exprs(alloc, directory, names, args)?,
        }),
        Expr::Host { .. } => number_operation(alloc, directory, names, expr),
    }
}

// An operation on other expressions.
#[cycle(numbered_expr)]
fn number_operation(
    alloc: Global,
    directory: &Directory,
    names: &IndexSet<&[u8]>,
    expr: &Expr,
) -> Result<WireExpr, NoMemory>
    requires directory { IsDirectory (texts names.now.keys) directory.now }
    requires operation { is_operation expr.now ≡ true }
    requires found { expr_found directory.now expr.now ≡ true }
    ensures { IfOk result (λ numbered. numbered ≡ expr_numbered directory.now expr.now) }
{
    match expr {
        Expr::Unary { op, of } => Ok(WireExpr::Unary {
            op: *op,
            of: number_boxed(alloc, directory, names, of)?,
        }),
        Expr::Binary { op, left, right } => Ok(WireExpr::Binary {
            op: *op,
            left: number_boxed(alloc, directory, names, left)?,
            right: number_boxed(alloc, directory, names, right)?,
        }),
        Expr::Cast { class, of } => Ok(WireExpr::Cast {
            class: number_class(directory, names, class.get()),
            of: number_boxed(alloc, directory, names, of)?,
        }),
        Expr::Isa { class, of } => Ok(WireExpr::Isa {
            class: number_class(directory, names, class.get()),
            of: number_boxed(alloc, directory, names, of)?,
        }),
        Expr::Proxy { class, of } => Ok(WireExpr::Proxy {
            class: number_class(directory, names, class.get()),
            of: number_boxed(alloc, directory, names, of)?,
        }),
        Expr::Host { code, a, b } => Ok(WireExpr::Host {
            code: *code,
            a: number_boxed(alloc, directory, names, a)?,
            b: number_boxed(alloc, directory, names, b)?,
        }),
        _ => unreachable!(),
    }
}

// A call on a receiver.
#[cycle(numbered_expr)]
fn number_receiver_call(
    alloc: Global,
    directory: &Directory,
    names: &IndexSet<&[u8]>,
    expr: &Expr,
) -> Result<WireExpr, NoMemory>
    requires directory { IsDirectory (texts names.now.keys) directory.now }
    requires call { is_receiver_call expr.now ≡ true }
    requires found { expr_found directory.now expr.now ≡ true }
    ensures { IfOk result (λ numbered. numbered ≡ expr_numbered directory.now expr.now) }
{
    match expr {
        Expr::OffsetCall {
            method,
            receiver,
            args,
        } => Ok(WireExpr::OffsetCall {
            method: number_method(directory, names, method.get()),
            receiver: number_boxed(alloc, directory, names, receiver)?,
            args: number_exprs(alloc, directory, names, args)?,
        }),
        Expr::Lookup {
            result: kind,
            name,
            receiver,
            args,
        } => Ok(WireExpr::Lookup {
            result: number_kind(directory, names, kind.get()),
            name: name.get().copy(alloc)?,
            receiver: number_boxed(alloc, directory, names, receiver)?,
            args: number_exprs(alloc, directory, names, args)?,
        }),
        Expr::Dispatch {
            result: kind,
            name,
            receiver,
            args,
        } => Ok(WireExpr::Dispatch {
            result: number_kind(directory, names, kind.get()),
            name: name.get().copy(alloc)?,
            receiver: number_boxed(alloc, directory, names, receiver)?,
            args: number_exprs(alloc, directory, names, args)?,
        }),
        _ => unreachable!(),
    }
}

#[cycle(numbered_expr)]
fn number_boxed(
    alloc: Global,
    directory: &Directory,
    names: &IndexSet<&[u8]>,
    expr: &Boxed<Expr>,
) -> Result<Boxed<WireExpr>, NoMemory>
    requires directory { IsDirectory (texts names.now.keys) directory.now }
    requires found { expr_found directory.now expr.now ≡ true }
    ensures { IfOk result (λ numbered. numbered ≡ expr_numbered directory.now expr.now) }
{
    Boxed::new(alloc, number_expr(alloc, directory, names, expr.get())?)
}

#[cycle(numbered_expr)]
#[tactic(auto, using(crate::proofs::FoundNames::found_each))]
fn number_exprs(
    alloc: Global,
    directory: &Directory,
    names: &IndexSet<&[u8]>,
    exprs: &List<Expr>,
) -> Result<List<WireExpr>, NoMemory>
    requires directory { IsDirectory (texts names.now.keys) directory.now }
    requires found { all_found (map (expr_found directory.now) exprs.now) ≡ true }
    ensures { IfOk result (λ numbered. numbered ≡ map (expr_numbered directory.now) exprs.now) }
{
    number_each(alloc, directory, names, exprs)
}

#[cycle(numbered_expr)]
fn number_each(
    alloc: Global,
    directory: &Directory,
    names: &IndexSet<&[u8]>,
    exprs: &List<Expr>,
) -> Result<List<WireExpr>, NoMemory>
    requires directory { IsDirectory (texts names.now.keys) directory.now }
    requires found { list_all (expr_found directory.now) exprs.now ≡ true }
    ensures { IfOk result (λ numbered. numbered ≡ map (expr_numbered directory.now) exprs.now) }
{
    let mut numbered = List::new(alloc);
    for expr in exprs.as_slice() {
        numbered.push(number_expr(alloc, directory, names, expr)?)?;
    }
    Ok(numbered)
}
