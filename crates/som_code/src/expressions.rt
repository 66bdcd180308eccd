//! The code of expressions: operands, operators and calls.

ghost use Rattle.som_code.specs.Laid.{lay_and, lay_each, lay_expr, lay_or, lay_right};
ghost use Rattle.som_model.specs.Blocks.{is_call};
ghost use Rattle.som_semantics.specs.Values.{binary_op};
ghost use Rattle.std.specs.Prelude.{◌≡◌, ◌++◌, ◌∷◌, [], length, map, true, OnOk};

use crate::emit::{emit, emit_text, patch};
use crate::{Constant, Instruction};
use som_model::{Boxed, ClassKey, Expr, HostCode, List, MethodRef, NoMemory, Text, ValueType};
use std::alloc::Global;

// The numbers of the operators that look at their right side only where it decides.
const AND: u8 = 11;

const OR: u8 = 12;

// The code of an expression.
#[cycle(emit_expr)]
pub(crate) fn emit_expr(
    alloc: Global,
    code: &mut Vec<Instruction>,
    e: &Expr,
) -> Result<(), NoMemory>
    ensures { OnOk result (code.new.items ≡ code.old.items ++ lay_expr e.now (length code.old.items)) }
{
    match e {
        Expr::Long(number) => emit(code, Instruction::Push(Constant::Long(*number))),
        Expr::Str(text) => emit_text(alloc, code, text),
        Expr::Boolean(truth) => emit(code, Instruction::Push(Constant::Boolean(*truth))),
        Expr::Nil => emit(code, Instruction::Push(Constant::Nil)),
        Expr::Local(place) => emit(code, Instruction::Get(*place as usize)),
        Expr::Me => emit(code, Instruction::Me),
        Expr::Variable(place) => emit(code, Instruction::GetVariable(*place)),
        Expr::Unary { op, of } => {
            emit_part(alloc, code, of)?;
            emit(code, Instruction::Unary(*op))
        }
        Expr::Binary { op, left, right } => {
            emit_part(alloc, code, left)?;
            emit_right(alloc, code, *op, right)
        }
        Expr::New(class) => emit_new(alloc, code, class.get()),
        Expr::Class(class) => emit_class(alloc, code, class.get()),
        Expr::Manager => emit(code, Instruction::Manager),
        Expr::Cast { class, of } => emit_cast(alloc, code, of, class.get()),
        Expr::Isa { class, of } => emit_isa(alloc, code, of, class.get()),
        Expr::Proxy { class, of } => emit_proxy(alloc, code, of, class.get()),
        Expr::Host { code: host, a, b } => emit_host_call(alloc, code, *host, a, b),
        _ => emit_call(alloc, code, e),
    }
}

fn emit_new(alloc: Global, code: &mut Vec<Instruction>, class: &ClassKey) -> Result<(), NoMemory>
    ensures { OnOk result (code.new.items
        ≡ code.old.items ++ Instruction.New class.now ∷ []) }
{
    let class = class.copy(alloc)?;
    emit(code, Instruction::New(class))
}

fn emit_class(alloc: Global, code: &mut Vec<Instruction>, class: &ClassKey) -> Result<(), NoMemory>
    ensures { OnOk result (code.new.items
        ≡ code.old.items ++ Instruction.Class class.now ∷ []) }
{
    let class = class.copy(alloc)?;
    emit(code, Instruction::Class(class))
}

#[cycle(emit_expr)]
fn emit_cast(
    alloc: Global,
    code: &mut Vec<Instruction>,
    of: &Boxed<Expr>,
    class: &ClassKey,
) -> Result<(), NoMemory>
    ensures { OnOk result (code.new.items
        ≡ code.old.items ++ lay_expr (Expr.Cast class.now of.now) (length code.old.items)) }
{
    emit_part(alloc, code, of)?;
    let class = class.copy(alloc)?;
    emit(code, Instruction::Cast(class))
}

#[cycle(emit_expr)]
fn emit_isa(
    alloc: Global,
    code: &mut Vec<Instruction>,
    of: &Boxed<Expr>,
    class: &ClassKey,
) -> Result<(), NoMemory>
    ensures { OnOk result (code.new.items
        ≡ code.old.items ++ lay_expr (Expr.Isa class.now of.now) (length code.old.items)) }
{
    emit_part(alloc, code, of)?;
    let class = class.copy(alloc)?;
    emit(code, Instruction::Isa(class))
}

#[cycle(emit_expr)]
fn emit_proxy(
    alloc: Global,
    code: &mut Vec<Instruction>,
    of: &Boxed<Expr>,
    class: &ClassKey,
) -> Result<(), NoMemory>
    ensures { OnOk result (code.new.items
        ≡ code.old.items ++ lay_expr (Expr.Proxy class.now of.now) (length code.old.items)) }
{
    emit_part(alloc, code, of)?;
    let class = class.copy(alloc)?;
    emit(code, Instruction::Proxy(class))
}

// The code of a call of the host.
#[cycle(emit_expr)]
fn emit_host_call(
    alloc: Global,
    code: &mut Vec<Instruction>,
    host: HostCode,
    a: &Boxed<Expr>,
    b: &Boxed<Expr>,
) -> Result<(), NoMemory>
    ensures { OnOk result (code.new.items
        ≡ code.old.items ++ lay_expr (Expr.Host host a.now b.now) (length code.old.items)) }
{
    emit_part(alloc, code, a)?;
    emit_part(alloc, code, b)?;
    emit(code, Instruction::Host(host))
}

// The code of a call.
#[cycle(emit_expr)]
fn emit_call(alloc: Global, code: &mut Vec<Instruction>, e: &Expr) -> Result<(), NoMemory>
    requires { is_call e.now ≡ true }
    ensures { OnOk result (code.new.items ≡ code.old.items ++ lay_expr e.now (length code.old.items)) }
{
    match e {
        Expr::OffsetCall {
            method,
            receiver,
            args,
        } => emit_offset_call(alloc, code, method.get(), args, receiver),
        Expr::Lookup {
            result: kind,
            name,
            receiver,
            args,
        } => emit_lookup(alloc, code, kind.get(), name.get(), args, receiver),
        Expr::Dispatch {
            result: kind,
            name,
            receiver,
            args,
        } => emit_dispatch(alloc, code, kind.get(), name.get(), args, receiver),
        Expr::ParentCall {
            parent,
            method,
            args,
        } => emit_parent_call(alloc, code, *parent, method.get(), args),
        Expr::ParentsCall { method, args } => emit_parents_call(alloc, code, method.get(), args),
        _ => unreachable!(),
    }
}

#[cycle(emit_expr)]
fn emit_offset_call(
    alloc: Global,
    code: &mut Vec<Instruction>,
    method: &MethodRef,
    args: &List<Expr>,
    receiver: &Boxed<Expr>,
) -> Result<(), NoMemory>
    ensures { OnOk result (code.new.items
        ≡ code.old.items ++ lay_expr (Expr.OffsetCall method.now receiver.now args.now) (length code.old.items)) }
{
    emit_part(alloc, code, receiver)?;
    emit_args(alloc, code, args)?;
    let method = method.copy(alloc)?;
    let args = args.len();
    emit(code, Instruction::OffsetCall { method, args })
}

#[cycle(emit_expr)]
fn emit_lookup(
    alloc: Global,
    code: &mut Vec<Instruction>,
    kind: &ValueType,
    name: &Text,
    args: &List<Expr>,
    receiver: &Boxed<Expr>,
) -> Result<(), NoMemory>
    ensures { OnOk result (code.new.items
        ≡ code.old.items ++ lay_expr (Expr.Lookup kind.now name.now receiver.now args.now) (length code.old.items)) }
{
    emit_part(alloc, code, receiver)?;
    emit_args(alloc, code, args)?;
    let name = name.copy(alloc)?;
    let result = kind.copy(alloc)?;
    let args = args.len();
    emit(code, Instruction::Lookup { result, name, args })
}

#[cycle(emit_expr)]
fn emit_dispatch(
    alloc: Global,
    code: &mut Vec<Instruction>,
    kind: &ValueType,
    name: &Text,
    args: &List<Expr>,
    receiver: &Boxed<Expr>,
) -> Result<(), NoMemory>
    ensures { OnOk result (code.new.items
        ≡ code.old.items ++ lay_expr (Expr.Dispatch kind.now name.now receiver.now args.now) (length code.old.items)) }
{
    emit_part(alloc, code, receiver)?;
    emit_args(alloc, code, args)?;
    let name = name.copy(alloc)?;
    let result = kind.copy(alloc)?;
    let args = args.len();
    emit(code, Instruction::Dispatch { result, name, args })
}

#[cycle(emit_expr)]
fn emit_parent_call(
    alloc: Global,
    code: &mut Vec<Instruction>,
    parent: u8,
    method: &MethodRef,
    args: &List<Expr>,
) -> Result<(), NoMemory>
    ensures { OnOk result (code.new.items
        ≡ code.old.items ++ lay_expr (Expr.ParentCall parent method.now args.now) (length code.old.items)) }
{
    emit_args(alloc, code, args)?;
    let method = method.copy(alloc)?;
    let args = args.len();
    emit(
        code,
        Instruction::ParentCall {
            parent,
            method,
            args,
        },
    )
}

#[cycle(emit_expr)]
fn emit_parents_call(
    alloc: Global,
    code: &mut Vec<Instruction>,
    method: &MethodRef,
    args: &List<Expr>,
) -> Result<(), NoMemory>
    ensures { OnOk result (code.new.items
        ≡ code.old.items ++ lay_expr (Expr.ParentsCall method.now args.now) (length code.old.items)) }
{
    emit_args(alloc, code, args)?;
    let method = method.copy(alloc)?;
    let args = args.len();
    emit(code, Instruction::ParentsCall { method, args })
}

#[cycle(emit_expr)]
fn emit_part(alloc: Global, code: &mut Vec<Instruction>, part: &Boxed<Expr>) -> Result<(), NoMemory>
    ensures { OnOk result (code.new.items ≡ code.old.items ++ lay_expr part.now (length code.old.items)) }
{
    emit_expr(alloc, code, part.get())
}

// The right side of an operator, and what joins both sides.
#[cycle(emit_expr)]
fn emit_right(
    alloc: Global,
    code: &mut Vec<Instruction>,
    op: u8,
    right: &Boxed<Expr>,
) -> Result<(), NoMemory>
    ensures { OnOk result (code.new.items
        ≡ code.old.items ++ lay_right (binary_op op) op (lay_expr right.now) (length code.old.items)) }
{
    match op {
        AND => emit_and(alloc, code, right),
        OR => emit_or(alloc, code, right),
        _ => {
            emit_part(alloc, code, right)?;
            emit(code, Instruction::Binary(op))
        }
    }
}

// After the left side of `and`.
#[cycle(emit_expr)]
fn emit_and(alloc: Global, code: &mut Vec<Instruction>, right: &Boxed<Expr>) -> Result<(), NoMemory>
    ensures { OnOk result (code.new.items ≡ code.old.items ++ lay_and (lay_expr right.now) (length code.old.items)) }
{
    let test = code.len();
    emit(code, Instruction::Unless(0))?;
    emit_part(alloc, code, right)?;
    let jump = code.len();
    emit(code, Instruction::Jump(jump + 2))?;
    emit(code, Instruction::Push(Constant::Boolean(false)))?;
    patch(code, test, Instruction::Unless(jump + 1));
    Ok(())
}

// After the left side of `or`.
#[cycle(emit_expr)]
fn emit_or(alloc: Global, code: &mut Vec<Instruction>, right: &Boxed<Expr>) -> Result<(), NoMemory>
    ensures { OnOk result (code.new.items ≡ code.old.items ++ lay_or (lay_expr right.now) (length code.old.items)) }
{
    let test = code.len();
    emit(code, Instruction::Unless(test + 3))?;
    emit(code, Instruction::Push(Constant::Boolean(true)))?;
    emit(code, Instruction::Jump(0))?;
    emit_part(alloc, code, right)?;
    let end = code.len();
    patch(code, test + 2, Instruction::Jump(end));
    Ok(())
}

// Arguments, from left to right.
#[cycle(emit_expr)]
fn emit_args(alloc: Global, code: &mut Vec<Instruction>, args: &List<Expr>) -> Result<(), NoMemory>
    ensures { OnOk result (code.new.items
        ≡ code.old.items ++ lay_each (map lay_expr args.now) (length code.old.items)) }
{
    for arg in args.as_slice() {
        emit_expr(alloc, code, arg)?;
    }
    Ok(())
}
