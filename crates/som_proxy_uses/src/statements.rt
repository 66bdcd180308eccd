//! The walk over statements and blocks that gathers the classes whose proxies they name.

ghost use Rattle.som_model.specs.Made.{proxies_in};
ghost use Rattle.som_proxy_uses.specs.Forms.{expr_proxies, stmt_proxies};
ghost use Rattle.som_proxy_uses.specs.Proxied.{proxies_of};
ghost use Rattle.std.specs.Prelude.{◌≡◌, ◌++◌, OnOk};

use crate::expressions::note_expr;
use som_model::{Block, ClassKey, Expr, List, NoMemory, Stmt};
use std::alloc::Global;

// The classes of which a block names proxies, in the order of its text.
#[cycle(note_block)]
pub(crate) fn note_block(
    alloc: Global,
    block: &Block,
    named: &mut List<ClassKey>,
) -> Result<(), NoMemory>
    ensures { OnOk result (proxies_of named.new ≡ proxies_of named.old ++ proxies_in block.now) }
{
    for statement in block.statements.as_slice() {
        note_stmt(alloc, statement, named)?;
    }
    Ok(())
}

#[cycle(note_block)]
fn note_stmt(alloc: Global, statement: &Stmt, named: &mut List<ClassKey>) -> Result<(), NoMemory>
    ensures { OnOk result (proxies_of named.new ≡ proxies_of named.old ++ stmt_proxies statement.now) }
{
    match statement {
        Stmt::Var { value, .. } => note_expr(alloc, value.get(), named),
        Stmt::SetLocal { value, .. } => note_expr(alloc, value.get(), named),
        Stmt::SetVariable { value, .. } => note_expr(alloc, value.get(), named),
        Stmt::If {
            condition,
            then,
            other,
        } => note_choice(alloc, condition.get(), then.get(), other.get(), named),
        Stmt::While { condition, block } => note_guarded(
            alloc,
            condition.get(),
            block.get(),
            named,
        ),
        Stmt::Return => Ok(()),
        Stmt::ReturnValue { value } => note_expr(alloc, value.get(), named),
        Stmt::Print { value } => note_expr(alloc, value.get(), named),
        Stmt::Free { value } => note_expr(alloc, value.get(), named),
        Stmt::Call { call } => note_expr(alloc, call.get(), named),
    }
}

#[cycle(note_block)]
fn note_choice(
    alloc: Global,
    condition: &Expr,
    then: &Block,
    other: &Block,
    named: &mut List<ClassKey>,
) -> Result<(), NoMemory>
    ensures { OnOk result (proxies_of named.new ≡ proxies_of named.old ++ (expr_proxies condition.now ++ proxies_in then.now ++ proxies_in other.now)) }
{
    note_guarded(alloc, condition, then, named)?;
    note_block(alloc, other, named)
}

// A condition, and then the block that it guards.
#[cycle(note_block)]
fn note_guarded(
    alloc: Global,
    condition: &Expr,
    block: &Block,
    named: &mut List<ClassKey>,
) -> Result<(), NoMemory>
    ensures { OnOk result (proxies_of named.new ≡ proxies_of named.old ++ (expr_proxies condition.now ++ proxies_in block.now)) }
{
    note_expr(alloc, condition, named)?;
    note_block(alloc, block, named)
}
