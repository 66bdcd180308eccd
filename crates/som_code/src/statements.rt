//! The code of blocks and statements, with the jumps of choices and loops.

ghost use Rattle.som_code.specs.Laid.{lay_block, lay_choice, lay_expr, lay_loop, lay_stmt};
ghost use Rattle.som_model.specs.Kernel.{som_free};
ghost use Rattle.std.specs.Prelude.{◌≡◌, ◌<◌, ◌≤◌, ◌+◌, ◌^◌, ◌++◌, ◌∷◌, [], length, IfOk, OnOk};

use crate::Instruction;
use crate::emit::{emit, emit_set, patch};
use crate::expressions::emit_expr;
use som_model::{Block, ClassKey, Expr, MethodRef, Module, NoMemory, Stmt, Text};
use std::alloc::Global;

// The code of a block where so many locals are visible.
#[cycle(emit_block)]
pub(crate) fn emit_block(
    alloc: Global,
    code: &mut Vec<Instruction>,
    locals: usize,
    block: &Block,
) -> Result<(), NoMemory>
    requires { locals < 2 ^ 63 + length code.old.items }
    ensures { OnOk result (code.new.items
        ≡ code.old.items ++ lay_block block.now locals (length code.old.items)) }
{
    let mut visible = locals;
    for statement in block.statements.as_slice() {
        emit_stmt(alloc, code, visible, statement)?;
        visible += added(statement);
    }
    emit(code, Instruction::Cut(locals))
}

// How many locals a statement adds.
fn added(statement: &Stmt) -> usize
    ensures value { result ≡ (lay_stmt statement.now).adds }
    ensures one { result ≤ 1 }
{
    match statement {
        Stmt::Var { .. } => 1,
        _ => 0,
    }
}

// The code of a statement where so many locals are visible.
#[cycle(emit_block)]
fn emit_stmt(
    alloc: Global,
    code: &mut Vec<Instruction>,
    locals: usize,
    statement: &Stmt,
) -> Result<(), NoMemory>
    requires { locals < 2 ^ 63 + length code.old.items }
    ensures { OnOk result (code.new.items
        ≡ code.old.items ++ (lay_stmt statement.now).lays locals (length code.old.items)) }
{
    match statement {
        Stmt::Var { value, .. } => {
            emit_expr(alloc, code, value.get())?;
            emit(code, Instruction::Set(locals))
        }
        Stmt::SetLocal { local, value } => {
            emit_expr(alloc, code, value.get())?;
            emit_set(code, *local as usize, locals)
        }
        Stmt::SetVariable { variable, value } => {
            emit_expr(alloc, code, value.get())?;
            emit(code, Instruction::SetVariable(*variable))
        }
        Stmt::If {
            condition,
            then,
            other,
        } => {
            emit_expr(alloc, code, condition.get())?;
            emit_choice(alloc, code, locals, then.get(), other.get())
        }
        Stmt::While { condition, block } => emit_loop(
            alloc,
            code,
            locals,
            condition.get(),
            block.get(),
        ),
        Stmt::Return => emit(code, Instruction::Return),
        Stmt::ReturnValue { value } => {
            emit_expr(alloc, code, value.get())?;
            emit(code, Instruction::ReturnValue)
        }
        Stmt::Print { value } => {
            emit_expr(alloc, code, value.get())?;
            emit(code, Instruction::Print)
        }
        Stmt::Free { value } => emit_free(alloc, code, value.get()),
        Stmt::Call { call } => {
            emit_expr(alloc, code, call.get())?;
            emit(code, Instruction::Drop)
        }
    }
}

// After a condition: the first block where it is TRUE, and else the second.
#[cycle(emit_block)]
fn emit_choice(
    alloc: Global,
    code: &mut Vec<Instruction>,
    locals: usize,
    then: &Block,
    other: &Block,
) -> Result<(), NoMemory>
    requires { locals < 2 ^ 63 + length code.old.items }
    ensures { OnOk result (code.new.items
        ≡ code.old.items ++ lay_choice (lay_block then.now locals) (lay_block other.now locals) (length code.old.items)) }
{
    let test = code.len();
    emit(code, Instruction::Unless(0))?;
    emit_block(alloc, code, locals, then)?;
    let jump = code.len();
    emit(code, Instruction::Jump(0))?;
    emit_block(alloc, code, locals, other)?;
    patch(code, test, Instruction::Unless(jump + 1));
    let end = code.len();
    patch(code, jump, Instruction::Jump(end));
    Ok(())
}

// A loop: the condition stands last, so that the one jump back is to the turn.
#[cycle(emit_block)]
fn emit_loop(
    alloc: Global,
    code: &mut Vec<Instruction>,
    locals: usize,
    condition: &Expr,
    block: &Block,
) -> Result<(), NoMemory>
    requires { locals < 2 ^ 63 + length code.old.items }
    ensures { OnOk result (code.new.items
        ≡ code.old.items ++ lay_loop (lay_expr condition.now) (lay_block block.now locals) (length code.old.items)) }
{
    let start = code.len();
    emit(code, Instruction::Jump(0))?;
    emit(code, Instruction::Turn)?;
    emit_block(alloc, code, locals, block)?;
    let test = code.len();
    emit_expr(alloc, code, condition)?;
    let end = code.len();
    emit(code, Instruction::Unless(end + 2))?;
    emit(code, Instruction::Jump(start + 1))?;
    patch(code, start, Instruction::Jump(test));
    Ok(())
}

// The method that frees an object.
fn free_method(alloc: Global) -> Result<MethodRef, NoMemory>
    ensures { IfOk result (λ method. method ≡ som_free) }
{
    let name = Text::from_slice(alloc, b"somFree")?;
    let class = ClassKey::Named {
        module: Module::Kernel,
        name: Text::from_slice(alloc, b"SOMObject")?,
    };
    Ok(MethodRef { class, name })
}

// The top is freed, and the answer taken off.
fn free_top(alloc: Global, code: &mut Vec<Instruction>) -> Result<(), NoMemory>
    ensures { OnOk result (code.new.items
        ≡ code.old.items ++ Instruction.OffsetCall som_free 0 ∷ Instruction.Drop ∷ []) }
{
    let method = free_method(alloc)?;
    emit(code, Instruction::OffsetCall { method, args: 0 })?;
    emit(code, Instruction::Drop)
}

// The value is freed.
fn emit_free(alloc: Global, code: &mut Vec<Instruction>, value: &Expr) -> Result<(), NoMemory>
    ensures { OnOk result (code.new.items
        ≡ code.old.items ++ (lay_expr value.now (length code.old.items)
        ++ Instruction.OffsetCall som_free 0 ∷ Instruction.Drop ∷ [])) }
{
    emit_expr(alloc, code, value)?;
    free_top(alloc, code)
}
