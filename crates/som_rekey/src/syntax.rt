//! Expressions, statements and blocks under other modules.

ghost use Rattle.som_model.specs.Blocks.{is_call};
ghost use Rattle.som_model.specs.declared.syntax.Expr.TheVariants as Expr;
ghost use Rattle.som_model.specs.declared.syntax.Stmt.TheVariants as Stmt;
ghost use Rattle.som_rekey_laws.specs.Rekeying.{rekey, rekey_block as new_block, rekey_expr as new_expr, rekey_method as new_method, rekey_type as new_type};
ghost use Rattle.som_rekey.specs.Statements.{new_stmt};
ghost use Rattle.std.specs.Prelude.{◌≡◌, true, IfOk, map};

use crate::NewModules;
use crate::keys::{rekey_key, rekey_method, rekey_type};
use som_model::{
    Block, Boxed, ClassKey, Expr, HostCode, List, MethodRef, NoMemory, Stmt, Text, ValueType,
};
use std::alloc::Global;

/// The expression under new keys.
#[cycle(rekey_expr)]
pub fn rekey_expr<C: NewModules>(alloc: Global, change: &C, expr: &Expr) -> Result<Expr, NoMemory>
    ensures { IfOk result (λ e. e ≡ new_expr (C.change change.now) expr.now) }
{
    match expr {
        Expr::Long(number) => Ok(Expr::Long(*number)),
        Expr::Str(text) => Ok(Expr::Str(text.copy(alloc)?)),
        Expr::Boolean(truth) => Ok(Expr::Boolean(*truth)),
        Expr::Nil => Ok(Expr::Nil),
        Expr::Local(place) => Ok(Expr::Local(*place)),
        Expr::Me => Ok(Expr::Me),
        Expr::Variable(place) => Ok(Expr::Variable(*place)),
        Expr::Unary { op, of } => Ok(Expr::Unary {
            op: *op,
            of: rekey_boxed(alloc, change, of)?,
        }),
        Expr::Binary { op, left, right } => rekey_binary(alloc, change, *op, left, right),
        Expr::New(key) => Ok(Expr::New(boxed_key(alloc, change, key.get())?)),
        Expr::Class(key) => Ok(Expr::Class(boxed_key(alloc, change, key.get())?)),
        Expr::Manager => Ok(Expr::Manager),
        Expr::Cast { class, of } => rekey_cast(alloc, change, of, class.get()),
        Expr::Isa { class, of } => rekey_isa(alloc, change, of, class.get()),
        Expr::Proxy { class, of } => rekey_proxy(alloc, change, of, class.get()),
        Expr::Host { code, a, b } => rekey_host(alloc, change, *code, a, b),
        _ => rekey_call(alloc, change, expr),
    }
}

// A call of any form.
#[cycle(rekey_expr)]
fn rekey_call<C: NewModules>(alloc: Global, change: &C, call: &Expr) -> Result<Expr, NoMemory>
    requires { is_call call.now ≡ true }
    ensures { IfOk result (λ e. e ≡ new_expr (C.change change.now) call.now) }
{
    match call {
        Expr::OffsetCall {
            method,
            receiver,
            args,
        } => rekey_offset_call(alloc, change, method.get(), args, receiver),
        Expr::Lookup {
            result: kind,
            name,
            receiver,
            args,
        } => rekey_lookup(alloc, change, kind.get(), name.get(), args, receiver),
        Expr::Dispatch {
            result: kind,
            name,
            receiver,
            args,
        } => rekey_dispatch(alloc, change, kind.get(), name.get(), args, receiver),
        Expr::ParentCall {
            parent,
            method,
            args,
        } => rekey_parent_call(alloc, change, *parent, method.get(), args),
        Expr::ParentsCall { method, args } => rekey_parents_call(alloc, change, method.get(), args),
        _ => unreachable!(),
    }
}

// What is cheap to let go is copied first, since each failure after it lets go of it.
#[cycle(rekey_expr)]
fn rekey_binary<C: NewModules>(
    alloc: Global,
    change: &C,
    op: u8,
    left: &Boxed<Expr>,
    right: &Boxed<Expr>,
) -> Result<Expr, NoMemory>
    ensures { IfOk result (λ e. e ≡ Expr.Binary op (new_expr (C.change change.now) left.now) (new_expr (C.change change.now) right.now)) }
{
    Ok(Expr::Binary {
        op,
        left: rekey_boxed(alloc, change, left)?,
        right: rekey_boxed(alloc, change, right)?,
    })
}

#[cycle(rekey_expr)]
fn rekey_host<C: NewModules>(
    alloc: Global,
    change: &C,
    code: HostCode,
    a: &Boxed<Expr>,
    b: &Boxed<Expr>,
) -> Result<Expr, NoMemory>
    ensures { IfOk result (λ e. e ≡ Expr.Host code (new_expr (C.change change.now) a.now) (new_expr (C.change change.now) b.now)) }
{
    Ok(Expr::Host {
        code,
        a: rekey_boxed(alloc, change, a)?,
        b: rekey_boxed(alloc, change, b)?,
    })
}

#[cycle(rekey_expr)]
fn rekey_cast<C: NewModules>(
    alloc: Global,
    change: &C,
    of: &Boxed<Expr>,
    class: &ClassKey,
) -> Result<Expr, NoMemory>
    ensures { IfOk result (λ e. e ≡ Expr.Cast (rekey (C.change change.now) class.now) (new_expr (C.change change.now) of.now)) }
{
    Ok(Expr::Cast {
        of: rekey_boxed(alloc, change, of)?,
        class: boxed_key(alloc, change, class)?,
    })
}

#[cycle(rekey_expr)]
fn rekey_isa<C: NewModules>(
    alloc: Global,
    change: &C,
    of: &Boxed<Expr>,
    class: &ClassKey,
) -> Result<Expr, NoMemory>
    ensures { IfOk result (λ e. e ≡ Expr.Isa (rekey (C.change change.now) class.now) (new_expr (C.change change.now) of.now)) }
{
    Ok(Expr::Isa {
        of: rekey_boxed(alloc, change, of)?,
        class: boxed_key(alloc, change, class)?,
    })
}

#[cycle(rekey_expr)]
fn rekey_proxy<C: NewModules>(
    alloc: Global,
    change: &C,
    of: &Boxed<Expr>,
    class: &ClassKey,
) -> Result<Expr, NoMemory>
    ensures { IfOk result (λ e. e ≡ Expr.Proxy (rekey (C.change change.now) class.now) (new_expr (C.change change.now) of.now)) }
{
    Ok(Expr::Proxy {
        of: rekey_boxed(alloc, change, of)?,
        class: boxed_key(alloc, change, class)?,
    })
}

#[cycle(rekey_expr)]
fn rekey_offset_call<C: NewModules>(
    alloc: Global,
    change: &C,
    method: &MethodRef,
    args: &List<Expr>,
    receiver: &Boxed<Expr>,
) -> Result<Expr, NoMemory>
    ensures { IfOk result (λ e. e ≡ Expr.OffsetCall (new_method (C.change change.now) method.now) (new_expr (C.change change.now) receiver.now) (map (new_expr (C.change change.now)) args.now)) }
{
    Ok(Expr::OffsetCall {
        args: rekey_exprs(alloc, change, args)?,
        receiver: rekey_boxed(alloc, change, receiver)?,
        method: boxed_method(alloc, change, method)?,
    })
}

#[cycle(rekey_expr)]
fn rekey_lookup<C: NewModules>(
    alloc: Global,
    change: &C,
    kind: &ValueType,
    name: &Text,
    args: &List<Expr>,
    receiver: &Boxed<Expr>,
) -> Result<Expr, NoMemory>
    ensures { IfOk result (λ e. e ≡ Expr.Lookup (new_type (C.change change.now) kind.now) name.now (new_expr (C.change change.now) receiver.now) (map (new_expr (C.change change.now)) args.now)) }
{
    Ok(Expr::Lookup {
        args: rekey_exprs(alloc, change, args)?,
        receiver: rekey_boxed(alloc, change, receiver)?,
        name: name.copy_boxed(alloc)?,
        result: boxed_type(alloc, change, kind)?,
    })
}

#[cycle(rekey_expr)]
fn rekey_dispatch<C: NewModules>(
    alloc: Global,
    change: &C,
    kind: &ValueType,
    name: &Text,
    args: &List<Expr>,
    receiver: &Boxed<Expr>,
) -> Result<Expr, NoMemory>
    ensures { IfOk result (λ e. e ≡ Expr.Dispatch (new_type (C.change change.now) kind.now) name.now (new_expr (C.change change.now) receiver.now) (map (new_expr (C.change change.now)) args.now)) }
{
    Ok(Expr::Dispatch {
        args: rekey_exprs(alloc, change, args)?,
        receiver: rekey_boxed(alloc, change, receiver)?,
        name: name.copy_boxed(alloc)?,
        result: boxed_type(alloc, change, kind)?,
    })
}

#[cycle(rekey_expr)]
fn rekey_parent_call<C: NewModules>(
    alloc: Global,
    change: &C,
    parent: u8,
    method: &MethodRef,
    args: &List<Expr>,
) -> Result<Expr, NoMemory>
    ensures { IfOk result (λ e. e ≡ Expr.ParentCall parent (new_method (C.change change.now) method.now) (map (new_expr (C.change change.now)) args.now)) }
{
    Ok(Expr::ParentCall {
        parent,
        args: rekey_exprs(alloc, change, args)?,
        method: boxed_method(alloc, change, method)?,
    })
}

#[cycle(rekey_expr)]
fn rekey_parents_call<C: NewModules>(
    alloc: Global,
    change: &C,
    method: &MethodRef,
    args: &List<Expr>,
) -> Result<Expr, NoMemory>
    ensures { IfOk result (λ e. e ≡ Expr.ParentsCall (new_method (C.change change.now) method.now) (map (new_expr (C.change change.now)) args.now)) }
{
    Ok(Expr::ParentsCall {
        args: rekey_exprs(alloc, change, args)?,
        method: boxed_method(alloc, change, method)?,
    })
}

#[cycle(rekey_expr)]
fn rekey_boxed<C: NewModules>(
    alloc: Global,
    change: &C,
    e: &Boxed<Expr>,
) -> Result<Boxed<Expr>, NoMemory>
    ensures { IfOk result (λ copy. copy ≡ new_expr (C.change change.now) e.now) }
{
    Boxed::new(alloc, rekey_expr(alloc, change, e.get())?)
}

#[cycle(rekey_expr)]
fn rekey_exprs<C: NewModules>(
    alloc: Global,
    change: &C,
    es: &List<Expr>,
) -> Result<List<Expr>, NoMemory>
    ensures { IfOk result (λ copies. copies ≡ map (new_expr (C.change change.now)) es.now) }
{
    let mut copies = List::new(alloc);
    for e in es.as_slice() {
        copies.push(rekey_expr(alloc, change, e)?)?;
    }
    Ok(copies)
}

fn boxed_key<C: NewModules>(
    alloc: Global,
    change: &C,
    key: &ClassKey,
) -> Result<Boxed<ClassKey>, NoMemory>
    ensures { IfOk result (λ k. k ≡ rekey (C.change change.now) key.now) }
{
    Boxed::new(alloc, rekey_key(alloc, change, key)?)
}

fn boxed_method<C: NewModules>(
    alloc: Global,
    change: &C,
    method: &MethodRef,
) -> Result<Boxed<MethodRef>, NoMemory>
    ensures { IfOk result (λ m. m ≡ new_method (C.change change.now) method.now) }
{
    Boxed::new(alloc, rekey_method(alloc, change, method)?)
}

fn boxed_type<C: NewModules>(
    alloc: Global,
    change: &C,
    kind: &ValueType,
) -> Result<Boxed<ValueType>, NoMemory>
    ensures { IfOk result (λ t. t ≡ new_type (C.change change.now) kind.now) }
{
    Boxed::new(alloc, rekey_type(alloc, change, kind)?)
}

/// The block under new keys.
#[cycle(rekey_block)]
pub fn rekey_block<C: NewModules>(
    alloc: Global,
    change: &C,
    block: &Block,
) -> Result<Block, NoMemory>
    ensures { IfOk result (λ b. b ≡ new_block (C.change change.now) block.now) }
{
    let mut copies = List::new(alloc);
    for statement in block.statements.as_slice() {
        copies.push(rekey_stmt(alloc, change, statement)?)?;
    }
    Ok(Block { statements: copies })
}

// The statement under new keys.
#[cycle(rekey_block)]
fn rekey_stmt<C: NewModules>(alloc: Global, change: &C, statement: &Stmt) -> Result<Stmt, NoMemory>
    ensures { IfOk result (λ s. s ≡ new_stmt (C.change change.now) statement.now) }
{
    match statement {
        Stmt::Var { kind, value } => rekey_var(alloc, change, kind.get(), value),
        Stmt::SetLocal { local, value } => Ok(Stmt::SetLocal {
            local: *local,
            value: rekey_boxed(alloc, change, value)?,
        }),
        Stmt::SetVariable { variable, value } => Ok(Stmt::SetVariable {
            variable: *variable,
            value: rekey_boxed(alloc, change, value)?,
        }),
        Stmt::If {
            condition,
            then,
            other,
        } => rekey_if(alloc, change, condition, then.get(), other.get()),
        Stmt::While { condition, block } => rekey_while(alloc, change, condition, block.get()),
        Stmt::Return => Ok(Stmt::Return),
        Stmt::ReturnValue { value } => Ok(Stmt::ReturnValue {
            value: rekey_boxed(alloc, change, value)?,
        }),
        Stmt::Print { value } => Ok(Stmt::Print {
            value: rekey_boxed(alloc, change, value)?,
        }),
        Stmt::Free { value } => Ok(Stmt::Free {
            value: rekey_boxed(alloc, change, value)?,
        }),
        Stmt::Call { call } => Ok(Stmt::Call {
            call: rekey_boxed(alloc, change, call)?,
        }),
    }
}

fn rekey_var<C: NewModules>(
    alloc: Global,
    change: &C,
    kind: &ValueType,
    value: &Boxed<Expr>,
) -> Result<Stmt, NoMemory>
    ensures { IfOk result (λ statement. statement ≡ Stmt.Var (new_type (C.change change.now) kind.now) (new_expr (C.change change.now) value.now)) }
{
    let kind = boxed_type(alloc, change, kind)?;
    let value = rekey_boxed(alloc, change, value)?;
    Ok(Stmt::Var { kind, value })
}

#[cycle(rekey_block)]
fn rekey_if<C: NewModules>(
    alloc: Global,
    change: &C,
    condition: &Boxed<Expr>,
    then: &Block,
    other: &Block,
) -> Result<Stmt, NoMemory>
    ensures { IfOk result (λ statement. statement ≡ Stmt.If (new_expr (C.change change.now) condition.now) (new_block (C.change change.now) then.now) (new_block (C.change change.now) other.now)) }
{
    let then = Boxed::new(alloc, rekey_block(alloc, change, then)?)?;
    let other = Boxed::new(alloc, rekey_block(alloc, change, other)?)?;
    let condition = rekey_boxed(alloc, change, condition)?;
    Ok(Stmt::If {
        condition,
        then,
        other,
    })
}

#[cycle(rekey_block)]
fn rekey_while<C: NewModules>(
    alloc: Global,
    change: &C,
    condition: &Boxed<Expr>,
    block: &Block,
) -> Result<Stmt, NoMemory>
    ensures { IfOk result (λ statement. statement ≡ Stmt.While (new_expr (C.change change.now) condition.now) (new_block (C.change change.now) block.now)) }
{
    let block = Boxed::new(alloc, rekey_block(alloc, change, block)?)?;
    let condition = rekey_boxed(alloc, change, condition)?;
    Ok(Stmt::While { condition, block })
}
