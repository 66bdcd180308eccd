//! Turns blocks with names to blocks of an image, statement by statement.

ghost use Rattle.som_image_fields.specs.declared.syntax.WireStmt.TheVariants as stmts;
ghost use Rattle.som_image_encode.specs.FoundNames.{block_found, expr_found, kind_found, statements_found, stmt_found};
ghost use Rattle.som_image_encode.specs.Numbering.{IsDirectory, kind_numbered};
ghost use Rattle.som_image_encode.specs.NumberedBlocks.{block_numbered, expr_numbered, stmt_numbered};
ghost use Rattle.som_image_encode.specs.ReadyBlocks.{BlockReady};
ghost use Rattle.som_order.specs.Names.{texts};
ghost use Rattle.std.specs.Prelude.{◌≡◌, true, IfOk};

use crate::found::number_kind;
use crate::numbered_expr::number_expr;
use indexmap::IndexSet;
use som_image_decode::Directory;
use som_image_fields::{WireBlock, WireStmt};
use som_model::{Block, Expr, List, NoMemory, Stmt, ValueType};
use std::alloc::Global;

/// The block of an image that stands for a block, by the names of the directory's classes.
#[tactic(auto, using(crate::proofs::FoundNames::ready_is_found))]
pub fn number_block(
    alloc: Global,
    directory: &Directory,
    names: &IndexSet<&[u8]>,
    block: &Block,
) -> Result<WireBlock, NoMemory>
    requires directory { IsDirectory (texts names.now.keys) directory.now }
    requires ready { BlockReady directory.now block.now }
    ensures { IfOk result (λ numbered. numbered ≡ block_numbered directory.now block.now) }
{
    number_inner(alloc, directory, names, block)
}

// A block that stands in another, or the outermost one.
#[cycle(numbered_block)]
#[tactic(auto, using(crate::proofs::FoundNames::statements_there))]
fn number_inner(
    alloc: Global,
    directory: &Directory,
    names: &IndexSet<&[u8]>,
    block: &Block,
) -> Result<WireBlock, NoMemory>
    requires directory { IsDirectory (texts names.now.keys) directory.now }
    requires found { block_found directory.now block.now ≡ true }
    ensures { IfOk result (λ numbered. numbered ≡ block_numbered directory.now block.now) }
{
    number_statements(alloc, directory, names, block)
}

#[cycle(numbered_block)]
#[tactic(auto, using(crate::proofs::TurnedBlocks::block_is), unfolding(crate::specs::FoundNames::statements_found))]
fn number_statements(
    alloc: Global,
    directory: &Directory,
    names: &IndexSet<&[u8]>,
    block: &Block,
) -> Result<WireBlock, NoMemory>
    requires directory { IsDirectory (texts names.now.keys) directory.now }
    requires found { statements_found directory.now block.now ≡ true }
    ensures { IfOk result (λ numbered. numbered ≡ block_numbered directory.now block.now) }
{
    let mut statements = List::new(alloc);
    for statement in block.statements.as_slice() {
        statements.push(number_stmt(alloc, directory, names, statement)?)?;
    }
    Ok(WireBlock { statements })
}

#[cycle(numbered_block)]
fn number_stmt(
    alloc: Global,
    directory: &Directory,
    names: &IndexSet<&[u8]>,
    statement: &Stmt,
) -> Result<WireStmt, NoMemory>
    requires directory { IsDirectory (texts names.now.keys) directory.now }
    requires found { stmt_found directory.now statement.now ≡ true }
    ensures { IfOk result (λ numbered. numbered ≡ stmt_numbered directory.now statement.now) }
{
    match statement {
        Stmt::Var { kind, value } => number_var(alloc, directory, names, kind.get(), value.get()),
        Stmt::SetLocal { local, value } => Ok(WireStmt::SetLocal {
            local: *local,
            value: number_expr(alloc, directory, names, value.get())?,
        }),
        Stmt::SetVariable { variable, value } => Ok(WireStmt::SetVariable {
            variable: *variable,
            value: number_expr(alloc, directory, names, value.get())?,
        }),
        Stmt::If {
            condition,
            then,
            other,
        } => number_if(
            alloc,
            directory,
            names,
            condition.get(),
            then.get(),
            other.get(),
        ),
        Stmt::While { condition, block } => {
            number_while(alloc, directory, names, condition.get(), block.get())
        }
        Stmt::Return => Ok(WireStmt::Return),
        Stmt::ReturnValue { value } => Ok(WireStmt::ReturnValue {
            value: number_expr(alloc, directory, names, value.get())?,
        }),
        Stmt::Print { value } => Ok(WireStmt::Print {
            value: number_expr(alloc, directory, names, value.get())?,
        }),
        Stmt::Free { value } => Ok(WireStmt::Free {
            value: number_expr(alloc, directory, names, value.get())?,
        }),
        Stmt::Call { call } => Ok(WireStmt::Call {
            call: number_expr(alloc, directory, names, call.get())?,
        }),
    }
}

fn number_var(
    alloc: Global,
    directory: &Directory,
    names: &IndexSet<&[u8]>,
    kind: &ValueType,
    value: &Expr,
) -> Result<WireStmt, NoMemory>
    requires directory { IsDirectory (texts names.now.keys) directory.now }
    requires kind { kind_found directory.now kind.now ≡ true }
    requires value { expr_found directory.now value.now ≡ true }
    ensures { IfOk result (λ numbered. numbered ≡ stmts.Var (kind_numbered directory.now.keys kind.now) (expr_numbered directory.now value.now)) }
{
    let kind = number_kind(directory, names, kind);
    let value = number_expr(alloc, directory, names, value)?;
    Ok(WireStmt::Var { kind, value })
}

#[cycle(numbered_block)]
fn number_if(
    alloc: Global,
    directory: &Directory,
    names: &IndexSet<&[u8]>,
    condition: &Expr,
    then: &Block,
    other: &Block,
) -> Result<WireStmt, NoMemory>
    requires directory { IsDirectory (texts names.now.keys) directory.now }
    requires condition { expr_found directory.now condition.now ≡ true }
    requires then { block_found directory.now then.now ≡ true }
    requires other { block_found directory.now other.now ≡ true }
    ensures { IfOk result (λ numbered. numbered ≡ stmts.If (expr_numbered directory.now condition.now) (block_numbered directory.now then.now) (block_numbered directory.now other.now)) }
{
    let then = number_inner(alloc, directory, names, then)?;
    let other = number_inner(alloc, directory, names, other)?;
    let condition = number_expr(alloc, directory, names, condition)?;
    Ok(WireStmt::If {
        condition,
        then,
        other,
    })
}

#[cycle(numbered_block)]
fn number_while(
    alloc: Global,
    directory: &Directory,
    names: &IndexSet<&[u8]>,
    condition: &Expr,
    block: &Block,
) -> Result<WireStmt, NoMemory>
    requires directory { IsDirectory (texts names.now.keys) directory.now }
    requires condition { expr_found directory.now condition.now ≡ true }
    requires block { block_found directory.now block.now ≡ true }
    ensures { IfOk result (λ numbered. numbered ≡ stmts.While (expr_numbered directory.now condition.now) (block_numbered directory.now block.now)) }
{
    let block = number_inner(alloc, directory, names, block)?;
    let condition = number_expr(alloc, directory, names, condition)?;
    Ok(WireStmt::While { condition, block })
}
