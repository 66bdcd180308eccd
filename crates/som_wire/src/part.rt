//! Encodes the part of a class: its variables, bodies and overrides.

ghost use Rattle.som_image_fields.specs.Fitting.{
  FitsBody,
  FitsOverride,
  FitsSomePart,
  FitsVariable,
};
ghost use Rattle.som_image_fields.specs.SyntaxSpelling.{body as body_bytes, overridden, part, variable as variable_bytes};
ghost use Rattle.som_image_fields.specs.Spelling.{FitsSomeRanges, most_classes};
ghost use Rattle.std.specs.List.{flat_map};
ghost use Rattle.std.specs.Prelude.{◌≡◌, ◌++◌, All, OnOk, OnErr};

use crate::block::append_block_of_body;
use crate::write_expr::append_byte;
use som_image_fields::{
    WireBody, WireOverride, WirePart, WireVariable, write_method, write_text, write_type, write_u8,
    write_u16,
};
use som_model::{List, NoMemory};
use std::alloc::Global;

/// Appends the part of a class. It is spelled in a list of its own first, so that want of memory leaves `out` as it was.
pub fn write_part(alloc: Global, out: &mut List<u8>, value: &WirePart) -> Result<(), NoMemory>
    requires { FitsSomePart value.now }
    ensures ok { OnOk result (out.new ≡ out.old ++ part value.now) }
    ensures err { OnErr result (out.new ≡ out.old) }
{
    let mut spelling = List::new(alloc);
    append_part(alloc, &mut spelling, value)?;
    out.extend_from_slice(spelling.as_slice())
}

// After an error a part of it may have been appended.
fn append_part(alloc: Global, out: &mut List<u8>, value: &WirePart) -> Result<(), NoMemory>
    requires { FitsSomePart value.now }
    ensures { OnOk result (out.new ≡ out.old ++ part value.now) }
{
    write_u8(out, value.variables.len() as u8)?;
    append_variables(alloc, out, &value.variables)?;
    append_bodies(alloc, out, &value.bodies)?;
    write_u16(out, value.overrides.len() as u16)?;
    append_overrides(alloc, out, &value.overrides)
}

fn append_variables(
    alloc: Global,
    out: &mut List<u8>,
    variables: &List<WireVariable>,
) -> Result<(), NoMemory>
    requires { All (FitsVariable most_classes) variables.now }
    ensures { OnOk result (out.new ≡ out.old ++ flat_map variable_bytes variables.now) }
{
    for variable in variables.as_slice() {
        append_variable(alloc, out, variable)?;
    }
    Ok(())
}

fn append_variable(
    alloc: Global,
    out: &mut List<u8>,
    variable: &WireVariable,
) -> Result<(), NoMemory>
    requires { FitsVariable most_classes variable.now }
    ensures { OnOk result (out.new ≡ out.old ++ variable_bytes variable.now) }
{
    write_text(alloc, out, &variable.name)?;
    write_type(out, &variable.kind)
}

fn append_bodies(alloc: Global, out: &mut List<u8>, bodies: &List<WireBody>) -> Result<(), NoMemory>
    requires { All (FitsBody most_classes FitsSomeRanges) bodies.now }
    ensures { OnOk result (out.new ≡ out.old ++ flat_map body_bytes bodies.now) }
{
    for body in bodies.as_slice() {
        append_body(alloc, out, body)?;
    }
    Ok(())
}

fn append_body(alloc: Global, out: &mut List<u8>, body: &WireBody) -> Result<(), NoMemory>
    requires { FitsBody most_classes FitsSomeRanges body.now }
    ensures { OnOk result (out.new ≡ out.old ++ body_bytes body.now) }
{
    match body {
        WireBody::User(block) => {
            write_u8(out, 0)?;
            append_block_of_body(alloc, out, block)
        }
        WireBody::Get(variable) => append_byte(out, 1, *variable),
        WireBody::Set(variable) => append_byte(out, 2, *variable),
    }
}

fn append_overrides(
    alloc: Global,
    out: &mut List<u8>,
    overrides: &List<WireOverride>,
) -> Result<(), NoMemory>
    requires { All (FitsOverride most_classes FitsSomeRanges) overrides.now }
    ensures { OnOk result (out.new ≡ out.old ++ flat_map overridden overrides.now) }
{
    for replaced in overrides.as_slice() {
        append_override(alloc, out, replaced)?;
    }
    Ok(())
}

fn append_override(
    alloc: Global,
    out: &mut List<u8>,
    replaced: &WireOverride,
) -> Result<(), NoMemory>
    requires { FitsOverride most_classes FitsSomeRanges replaced.now }
    ensures { OnOk result (out.new ≡ out.old ++ overridden replaced.now) }
{
    write_method(out, &replaced.method)?;
    append_block_of_body(alloc, out, &replaced.block)
}
