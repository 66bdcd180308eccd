//! Copies of expressions, statements and blocks with all that they hold.

ghost use Rattle.som_model.specs.Blocks.{is_call};
ghost use Rattle.std.specs.Prelude.{◌≡◌, true, IfOk};

use crate::{
    Block, Boxed, ClassKey, Expr, HostCode, List, MethodRef, NoMemory, Stmt, Text, ValueType,
};
use std::alloc::Global;

impl Expr {
    #[cycle(copy_expr)]
    pub fn copy(&self, alloc: Global) -> Result<Expr, NoMemory>
        ensures { IfOk result (λ e. e ≡ self.now) }
    {
        match self {
            Expr::Long(number) => Ok(Expr::Long(*number)),
            Expr::Str(text) => Ok(Expr::Str(text.copy(alloc)?)),
            Expr::Boolean(truth) => Ok(Expr::Boolean(*truth)),
            Expr::Nil => Ok(Expr::Nil),
            Expr::Local(place) => Ok(Expr::Local(*place)),
            Expr::Me => Ok(Expr::Me),
            Expr::Variable(place) => Ok(Expr::Variable(*place)),
            Expr::Unary { op, of } => Ok(Expr::Unary {
                op: *op,
                of: copy_boxed(alloc, of)?,
            }),
            Expr::Binary { op, left, right } => copy_binary(alloc, *op, left, right),
            Expr::New(key) => Ok(Expr::New(key.get().copy_boxed(alloc)?)),
            Expr::Class(key) => Ok(Expr::Class(key.get().copy_boxed(alloc)?)),
            Expr::Manager => Ok(Expr::Manager),
            Expr::Cast { class, of } => copy_cast(alloc, of, class.get()),
            Expr::Isa { class, of } => copy_isa(alloc, of, class.get()),
            Expr::Proxy { class, of } => copy_proxy(alloc, of, class.get()),
            Expr::Host { code, a, b } => copy_host(alloc, *code, a, b),
            _ => copy_call(alloc, self),
        }
    }
}

// A call of any form.
#[cycle(copy_expr)]
fn copy_call(alloc: Global, call: &Expr) -> Result<Expr, NoMemory>
    requires { is_call call.now ≡ true }
    ensures { IfOk result (λ e. e ≡ call.now) }
{
    match call {
        Expr::OffsetCall {
            method,
            receiver,
            args,
        } => copy_offset_call(alloc, method.get(), args, receiver),
        Expr::Lookup {
            result: kind,
            name,
            receiver,
            args,
        } => copy_lookup(alloc, kind.get(), name.get(), args, receiver),
        Expr::Dispatch {
            result: kind,
            name,
            receiver,
            args,
        } => copy_dispatch(alloc, kind.get(), name.get(), args, receiver),
        Expr::ParentCall {
            parent,
            method,
            args,
        } => copy_parent_call(alloc, *parent, method.get(), args),
        Expr::ParentsCall { method, args } => copy_parents_call(alloc, method.get(), args),
        _ => unreachable!(),
    }
}

// What is cheap to let go is copied first, since each failure after it lets go of it.
#[cycle(copy_expr)]
fn copy_binary(
    alloc: Global,
    op: u8,
    left: &Boxed<Expr>,
    right: &Boxed<Expr>,
) -> Result<Expr, NoMemory>
    ensures { IfOk result (λ e. e ≡ Expr.Binary op left.now right.now) }
{
    Ok(Expr::Binary {
        op,
        left: copy_boxed(alloc, left)?,
        right: copy_boxed(alloc, right)?,
    })
}

#[cycle(copy_expr)]
fn copy_host(
    alloc: Global,
    code: HostCode,
    a: &Boxed<Expr>,
    b: &Boxed<Expr>,
) -> Result<Expr, NoMemory>
    ensures { IfOk result (λ e. e ≡ Expr.Host code a.now b.now) }
{
    Ok(Expr::Host {
        code,
        a: copy_boxed(alloc, a)?,
        b: copy_boxed(alloc, b)?,
    })
}

#[cycle(copy_expr)]
fn copy_cast(alloc: Global, of: &Boxed<Expr>, class: &ClassKey) -> Result<Expr, NoMemory>
    ensures { IfOk result (λ e. e ≡ Expr.Cast class.now of.now) }
{
    Ok(Expr::Cast {
        of: copy_boxed(alloc, of)?,
        class: class.copy_boxed(alloc)?,
    })
}

#[cycle(copy_expr)]
fn copy_isa(alloc: Global, of: &Boxed<Expr>, class: &ClassKey) -> Result<Expr, NoMemory>
    ensures { IfOk result (λ e. e ≡ Expr.Isa class.now of.now) }
{
    Ok(Expr::Isa {
        of: copy_boxed(alloc, of)?,
        class: class.copy_boxed(alloc)?,
    })
}

#[cycle(copy_expr)]
fn copy_proxy(alloc: Global, of: &Boxed<Expr>, class: &ClassKey) -> Result<Expr, NoMemory>
    ensures { IfOk result (λ e. e ≡ Expr.Proxy class.now of.now) }
{
    Ok(Expr::Proxy {
        of: copy_boxed(alloc, of)?,
        class: class.copy_boxed(alloc)?,
    })
}

#[cycle(copy_expr)]
fn copy_offset_call(
    alloc: Global,
    method: &MethodRef,
    args: &List<Expr>,
    receiver: &Boxed<Expr>,
) -> Result<Expr, NoMemory>
    ensures { IfOk result (λ e. e ≡ Expr.OffsetCall method.now receiver.now args.now) }
{
    Ok(Expr::OffsetCall {
        args: copy_exprs(alloc, args)?,
        receiver: copy_boxed(alloc, receiver)?,
        method: method.copy_boxed(alloc)?,
    })
}

#[cycle(copy_expr)]
fn copy_lookup(
    alloc: Global,
    kind: &ValueType,
    name: &Text,
    args: &List<Expr>,
    receiver: &Boxed<Expr>,
) -> Result<Expr, NoMemory>
    ensures { IfOk result (λ e. e ≡ Expr.Lookup kind.now name.now receiver.now args.now) }
{
    Ok(Expr::Lookup {
        args: copy_exprs(alloc, args)?,
        receiver: copy_boxed(alloc, receiver)?,
        name: name.copy_boxed(alloc)?,
        result: kind.copy_boxed(alloc)?,
    })
}

#[cycle(copy_expr)]
fn copy_dispatch(
    alloc: Global,
    kind: &ValueType,
    name: &Text,
    args: &List<Expr>,
    receiver: &Boxed<Expr>,
) -> Result<Expr, NoMemory>
    ensures { IfOk result (λ e. e ≡ Expr.Dispatch kind.now name.now receiver.now args.now) }
{
    Ok(Expr::Dispatch {
        args: copy_exprs(alloc, args)?,
        receiver: copy_boxed(alloc, receiver)?,
        name: name.copy_boxed(alloc)?,
        result: kind.copy_boxed(alloc)?,
    })
}

#[cycle(copy_expr)]
fn copy_parent_call(
    alloc: Global,
    parent: u8,
    method: &MethodRef,
    args: &List<Expr>,
) -> Result<Expr, NoMemory>
    ensures { IfOk result (λ e. e ≡ Expr.ParentCall parent method.now args.now) }
{
    Ok(Expr::ParentCall {
        parent,
        args: copy_exprs(alloc, args)?,
        method: method.copy_boxed(alloc)?,
    })
}

#[cycle(copy_expr)]
fn copy_parents_call(alloc: Global, method: &MethodRef, args: &List<Expr>) -> Result<Expr, NoMemory>
    ensures { IfOk result (λ e. e ≡ Expr.ParentsCall method.now args.now) }
{
    Ok(Expr::ParentsCall {
        args: copy_exprs(alloc, args)?,
        method: method.copy_boxed(alloc)?,
    })
}

#[cycle(copy_expr)]
fn copy_boxed(alloc: Global, e: &Boxed<Expr>) -> Result<Boxed<Expr>, NoMemory>
    ensures { IfOk result (λ copy. copy ≡ e.now) }
{
    Boxed::new(alloc, e.get().copy(alloc)?)
}

#[cycle(copy_expr)]
fn copy_exprs(alloc: Global, es: &List<Expr>) -> Result<List<Expr>, NoMemory>
    ensures { IfOk result (λ copies. copies ≡ es.now) }
{
    let mut copies = List::new(alloc);
    for e in es.as_slice() {
        copies.push(e.copy(alloc)?)?;
    }
    Ok(copies)
}

impl Block {
    #[cycle(copy_block)]
    pub fn copy(&self, alloc: Global) -> Result<Block, NoMemory>
        ensures { IfOk result (λ block. block ≡ self.now) }
    {
        let mut copies = List::new(alloc);
        for statement in self.statements.as_slice() {
            copies.push(statement.copy(alloc)?)?;
        }
        Ok(Block { statements: copies })
    }
}

impl Stmt {
    #[cycle(copy_block)]
    pub fn copy(&self, alloc: Global) -> Result<Stmt, NoMemory>
        ensures { IfOk result (λ statement. statement ≡ self.now) }
    {
        match self {
            Stmt::Var { kind, value } => copy_var(alloc, kind.get(), value),
            Stmt::SetLocal { local, value } => Ok(Stmt::SetLocal {
                local: *local,
                value: copy_boxed(alloc, value)?,
            }),
            Stmt::SetVariable { variable, value } => Ok(Stmt::SetVariable {
                variable: *variable,
                value: copy_boxed(alloc, value)?,
            }),
            Stmt::If {
                condition,
                then,
                other,
            } => copy_if(alloc, condition, then.get(), other.get()),
            Stmt::While { condition, block } => copy_while(alloc, condition, block.get()),
            Stmt::Return => Ok(Stmt::Return),
            Stmt::ReturnValue { value } => Ok(Stmt::ReturnValue {
                value: copy_boxed(alloc, value)?,
            }),
            Stmt::Print { value } => Ok(Stmt::Print {
                value: copy_boxed(alloc, value)?,
            }),
            Stmt::Free { value } => Ok(Stmt::Free {
                value: copy_boxed(alloc, value)?,
            }),
            Stmt::Call { call } => Ok(Stmt::Call {
                call: copy_boxed(alloc, call)?,
            }),
        }
    }
}

fn copy_var(alloc: Global, kind: &ValueType, value: &Boxed<Expr>) -> Result<Stmt, NoMemory>
    ensures { IfOk result (λ statement. statement ≡ Stmt.Var kind.now value.now) }
{
    let kind = kind.copy_boxed(alloc)?;
    let value = copy_boxed(alloc, value)?;
    Ok(Stmt::Var { kind, value })
}

#[cycle(copy_block)]
fn copy_if(
    alloc: Global,
    condition: &Boxed<Expr>,
    then: &Block,
    other: &Block,
) -> Result<Stmt, NoMemory>
    ensures { IfOk result (λ statement. statement ≡ Stmt.If condition.now then.now other.now) }
{
    let then = Boxed::new(alloc, then.copy(alloc)?)?;
    let other = Boxed::new(alloc, other.copy(alloc)?)?;
    let condition = copy_boxed(alloc, condition)?;
    Ok(Stmt::If {
        condition,
        then,
        other,
    })
}

#[cycle(copy_block)]
fn copy_while(alloc: Global, condition: &Boxed<Expr>, block: &Block) -> Result<Stmt, NoMemory>
    ensures { IfOk result (λ statement. statement ≡ Stmt.While condition.now block.now) }
{
    let block = Boxed::new(alloc, block.copy(alloc)?)?;
    let condition = copy_boxed(alloc, condition)?;
    Ok(Stmt::While { condition, block })
}
