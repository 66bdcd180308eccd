//! Encodes expressions: the tag and its fields, and then the expressions within.

ghost use Rattle.som_image_fields.specs.Fitting.{FitsArgs, FitsSomeExpr, FitsSomeExprParts};
ghost use Rattle.som_image_fields.specs.SyntaxSpelling.{expr, host, truth};
ghost use Rattle.som_wire.specs.Writing.{expr_head, expr_operands};
ghost use Rattle.som_image_fields.specs.Spelling.{
  FitsKind,
  FitsSomeRanges,
  FitsText,
  counted,
  kind as kind_bytes,
  method as method_bytes,
  most_classes,
  number as number_bytes,
  text as text_bytes,
};
ghost use Rattle.std.specs.Int.{w8, w16, w32, cast_unsigned};
ghost use Rattle.std.specs.Prelude.{◌≡◌, ◌++◌, true, OnOk};

use som_image_fields::{
    WireExpr, WireMethod, WireType, write_method, write_text, write_type, write_u8, write_u16,
    write_u32,
};
use som_model::{HostCode, List, NoMemory, Text};
use std::alloc::Global;

/// Appends an expression. After an error a part of it may have been appended.
#[cycle(append_expr)]
pub(crate) fn append_expr(
    alloc: Global,
    out: &mut List<u8>,
    value: &WireExpr,
) -> Result<(), NoMemory>
    requires { FitsSomeExpr value.now }
    ensures { OnOk result (out.new ≡ out.old ++ expr value.now) }
{
    append_head(alloc, out, value)?;
    append_operands(alloc, out, value)
}

// The tag of an expression, and the fields before the expressions in it.
fn append_head(alloc: Global, out: &mut List<u8>, value: &WireExpr) -> Result<(), NoMemory>
    requires { FitsSomeExprParts value.now }
    ensures { OnOk result (out.new ≡ out.old ++ expr_head value.now) }
{
    match value {
        WireExpr::Long(number) => append_long(out, 0x20, *number),
        WireExpr::Str(text) => append_text(alloc, out, 0x21, text),
        WireExpr::Boolean(value) => append_byte(out, 0x22, flag_of(*value)),
        WireExpr::Nil => write_u8(out, 0x23),
        WireExpr::Local(local) => append_short(out, 0x24, *local),
        WireExpr::Me => write_u8(out, 0x25),
        WireExpr::Variable(variable) => append_byte(out, 0x26, *variable),
        WireExpr::Unary { op, .. } => append_byte(out, 0x27, *op),
        WireExpr::Binary { op, .. } => append_byte(out, 0x28, *op),
        WireExpr::New(class) => append_short(out, 0x29, *class),
        WireExpr::Class(class) => append_short(out, 0x2a, *class),
        WireExpr::Manager => write_u8(out, 0x2b),
        WireExpr::Cast { class, .. } => append_short(out, 0x2c, *class),
        WireExpr::Isa { class, .. } => append_short(out, 0x2d, *class),
        WireExpr::Proxy { class, .. } => append_short(out, 0x2e, *class),
        WireExpr::OffsetCall { method, .. } => append_method(out, 0x2f, method),
        WireExpr::Lookup {
            result: kind,
            name,
            ..
        } => append_named(alloc, out, 0x30, kind, name),
        WireExpr::Dispatch {
            result: kind,
            name,
            ..
        } => append_named(alloc, out, 0x31, kind, name),
        WireExpr::ParentCall { parent, method, .. } => append_parent(out, 0x32, *parent, method),
        WireExpr::ParentsCall { method, .. } => append_method(out, 0x33, method),
        WireExpr::Host { code, .. } => append_byte(out, 0x34, number_of(*code)),
    }
}

// The expressions in an expression: operands or a receiver, and arguments after their number.
#[cycle(append_expr)]
fn append_operands(alloc: Global, out: &mut List<u8>, value: &WireExpr) -> Result<(), NoMemory>
    requires { FitsSomeExprParts value.now }
    ensures { OnOk result (out.new ≡ out.old ++ expr_operands value.now) }
{
    match value {
        WireExpr::Unary { of, .. } => append_expr(alloc, out, of.get()),
        WireExpr::Binary { left, right, .. } => {
            append_expr(alloc, out, left.get())?;
            append_expr(alloc, out, right.get())
        }
        WireExpr::Cast { of, .. } => append_expr(alloc, out, of.get()),
        WireExpr::Isa { of, .. } => append_expr(alloc, out, of.get()),
        WireExpr::Proxy { of, .. } => append_expr(alloc, out, of.get()),
        WireExpr::OffsetCall { receiver, args, .. } => {
            append_expr(alloc, out, receiver.get())?;
            append_args(alloc, out, args)
        }
        WireExpr::Lookup { receiver, args, .. } => {
            append_expr(alloc, out, receiver.get())?;
            append_args(alloc, out, args)
        }
        WireExpr::Dispatch { receiver, args, .. } => {
            append_expr(alloc, out, receiver.get())?;
            append_args(alloc, out, args)
        }
        WireExpr::ParentCall { args, .. } => append_args(alloc, out, args),
        WireExpr::ParentsCall { args, .. } => append_args(alloc, out, args),
        WireExpr::Host { a, b, .. } => {
            append_expr(alloc, out, a.get())?;
            append_expr(alloc, out, b.get())
        }
        _ => Ok(()),
    }
}

// Arguments, after their number.
#[cycle(append_expr)]
fn append_args(alloc: Global, out: &mut List<u8>, args: &List<WireExpr>) -> Result<(), NoMemory>
    requires { FitsArgs FitsSomeExpr args.now }
    ensures { OnOk result (out.new ≡ out.old ++ counted w8 expr args.now) }
{
    write_u8(out, args.len() as u8)?;
    for arg in args.as_slice() {
        append_expr(alloc, out, arg)?;
    }
    Ok(())
}

fn append_long(out: &mut List<u8>, tag: u8, number: i32) -> Result<(), NoMemory>
    ensures { OnOk result (out.new ≡ out.old ++ (number_bytes w8 tag ++ number_bytes w32 (cast_unsigned w32 number))) }
{
    write_u8(out, tag)?;
    write_u32(out, number.cast_unsigned())
}

fn append_text(alloc: Global, out: &mut List<u8>, tag: u8, text: &Text) -> Result<(), NoMemory>
    requires { FitsText text.now }
    ensures { OnOk result (out.new ≡ out.old ++ (number_bytes w8 tag ++ text_bytes text.now)) }
{
    write_u8(out, tag)?;
    write_text(alloc, out, text)
}

/// Appends a tag and a number of one byte.
pub(crate) fn append_byte(out: &mut List<u8>, tag: u8, byte: u8) -> Result<(), NoMemory>
    ensures { OnOk result (out.new ≡ out.old ++ (number_bytes w8 tag ++ number_bytes w8 byte)) }
{
    write_u8(out, tag)?;
    write_u8(out, byte)
}

/// Appends a tag and a number of 2 bytes.
pub(crate) fn append_short(out: &mut List<u8>, tag: u8, number: u16) -> Result<(), NoMemory>
    ensures { OnOk result (out.new ≡ out.old ++ (number_bytes w8 tag ++ number_bytes w16 number)) }
{
    write_u8(out, tag)?;
    write_u16(out, number)
}

fn append_method(out: &mut List<u8>, tag: u8, method: &WireMethod) -> Result<(), NoMemory>
    requires { FitsSomeRanges method.now }
    ensures { OnOk result (out.new ≡ out.old ++ (number_bytes w8 tag ++ method_bytes method.now)) }
{
    write_u8(out, tag)?;
    write_method(out, method)
}

// What a call by name answers, and the name.
fn append_named(
    alloc: Global,
    out: &mut List<u8>,
    tag: u8,
    kind: &WireType,
    name: &Text,
) -> Result<(), NoMemory>
    requires kind { FitsKind most_classes true kind.now }
    requires name { FitsText name.now }
    ensures { OnOk result (out.new ≡ out.old ++ (number_bytes w8 tag ++ kind_bytes kind.now ++ text_bytes name.now)) }
{
    write_u8(out, tag)?;
    write_type(out, kind)?;
    write_text(alloc, out, name)
}

// The place of a parent, and its method.
fn append_parent(
    out: &mut List<u8>,
    tag: u8,
    parent: u8,
    method: &WireMethod,
) -> Result<(), NoMemory>
    requires { FitsSomeRanges method.now }
    ensures { OnOk result (out.new ≡ out.old ++ (number_bytes w8 tag ++ number_bytes w8 parent ++ method_bytes method.now)) }
{
    write_u8(out, tag)?;
    write_u8(out, parent)?;
    write_method(out, method)
}

fn flag_of(value: bool) -> u8
    ensures { result ≡ truth value }
{
    if value { 1 } else { 0 }
}

fn number_of(code: HostCode) -> u8
    ensures { result ≡ host code }
{
    match code {
        HostCode::Min => 0,
        HostCode::Max => 1,
        HostCode::And => 2,
        HostCode::Or => 3,
        HostCode::Xor => 4,
        HostCode::WrapAdd => 5,
    }
}
