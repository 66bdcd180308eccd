//! Encodes blocks: each statement by its tag and its fields, and then the blocks within.

ghost use Rattle.som_image_fields.specs.Fitting.{FitsSomeExpr, FitsSomeStmt, FitsSomeStmtParts, FitsStatements};
ghost use Rattle.som_image_fields.specs.SyntaxSpelling.{block, expr, stmt};
ghost use Rattle.som_wire.specs.Writing.{stmt_blocks, stmt_front};
ghost use Rattle.som_image_fields.specs.Spelling.{FitsKind, kind as kind_bytes, most_classes, number as number_bytes};
ghost use Rattle.std.specs.Int.{w8, w16};
ghost use Rattle.std.specs.Prelude.{◌≡◌, ◌++◌, false, OnOk};

use crate::write_expr::{append_byte, append_expr, append_short};
use som_image_fields::{WireBlock, WireExpr, WireStmt, WireType, write_type, write_u8, write_u32};
use som_model::{List, NoMemory};
use std::alloc::Global;

/// Appends a block. After an error a part of it may have been appended.
#[cycle(append_block)]
pub(crate) fn append_block(
    alloc: Global,
    out: &mut List<u8>,
    value: &WireBlock,
) -> Result<(), NoMemory>
    requires { FitsStatements FitsSomeStmt value.now }
    ensures { OnOk result (out.new ≡ out.old ++ block value.now) }
{
    write_u32(out, value.statements.len() as u32)?;
    for statement in value.statements.as_slice() {
        append_stmt(alloc, out, statement)?;
    }
    Ok(())
}

#[cycle(append_block)]
fn append_stmt(alloc: Global, out: &mut List<u8>, value: &WireStmt) -> Result<(), NoMemory>
    requires { FitsSomeStmt value.now }
    ensures { OnOk result (out.new ≡ out.old ++ stmt value.now) }
{
    append_front(alloc, out, value)?;
    append_blocks(alloc, out, value)
}

// The tag of a statement, and the fields before its blocks.
fn append_front(alloc: Global, out: &mut List<u8>, value: &WireStmt) -> Result<(), NoMemory>
    requires { FitsSomeStmtParts value.now }
    ensures { OnOk result (out.new ≡ out.old ++ stmt_front value.now) }
{
    match value {
        WireStmt::Var { kind, value } => append_var(alloc, out, kind, value),
        WireStmt::SetLocal { local, value } => append_set_local(alloc, out, *local, value),
        WireStmt::SetVariable { variable, value } => {
            append_set_variable(alloc, out, *variable, value)
        }
        WireStmt::If { condition, .. } => append_tagged(alloc, out, 0x04, condition),
        WireStmt::While { condition, .. } => append_tagged(alloc, out, 0x05, condition),
        WireStmt::Return => write_u8(out, 0x06),
        WireStmt::ReturnValue { value } => append_tagged(alloc, out, 0x07, value),
        WireStmt::Print { value } => append_tagged(alloc, out, 0x08, value),
        WireStmt::Free { value } => append_tagged(alloc, out, 0x09, value),
        WireStmt::Call { call } => append_tagged(alloc, out, 0x0a, call),
    }
}

// The blocks of a statement.
#[cycle(append_block)]
fn append_blocks(alloc: Global, out: &mut List<u8>, value: &WireStmt) -> Result<(), NoMemory>
    requires { FitsSomeStmtParts value.now }
    ensures { OnOk result (out.new ≡ out.old ++ stmt_blocks value.now) }
{
    match value {
        WireStmt::If { then, other, .. } => {
            append_block(alloc, out, then)?;
            append_block(alloc, out, other)
        }
        WireStmt::While { block, .. } => append_block(alloc, out, block),
        _ => Ok(()),
    }
}

fn append_var(
    alloc: Global,
    out: &mut List<u8>,
    kind: &WireType,
    value: &WireExpr,
) -> Result<(), NoMemory>
    requires kind { FitsKind most_classes false kind.now }
    requires value { FitsSomeExpr value.now }
    ensures { OnOk result (out.new ≡ out.old ++ (number_bytes w8 0x01 ++ kind_bytes kind.now ++ expr value.now)) }
{
    write_u8(out, 0x01)?;
    write_type(out, kind)?;
    append_expr(alloc, out, value)
}

fn append_set_local(
    alloc: Global,
    out: &mut List<u8>,
    local: u16,
    value: &WireExpr,
) -> Result<(), NoMemory>
    requires { FitsSomeExpr value.now }
    ensures { OnOk result (out.new ≡ out.old ++ (number_bytes w8 0x02 ++ number_bytes w16 local ++ expr value.now)) }
{
    append_short(out, 0x02, local)?;
    append_expr(alloc, out, value)
}

fn append_set_variable(
    alloc: Global,
    out: &mut List<u8>,
    variable: u8,
    value: &WireExpr,
) -> Result<(), NoMemory>
    requires { FitsSomeExpr value.now }
    ensures { OnOk result (out.new ≡ out.old ++ (number_bytes w8 0x03 ++ number_bytes w8 variable ++ expr value.now)) }
{
    append_byte(out, 0x03, variable)?;
    append_expr(alloc, out, value)
}

// A tag, and an expression.
fn append_tagged(
    alloc: Global,
    out: &mut List<u8>,
    tag: u8,
    value: &WireExpr,
) -> Result<(), NoMemory>
    requires { FitsSomeExpr value.now }
    ensures { OnOk result (out.new ≡ out.old ++ (number_bytes w8 tag ++ expr value.now)) }
{
    write_u8(out, tag)?;
    append_expr(alloc, out, value)
}
