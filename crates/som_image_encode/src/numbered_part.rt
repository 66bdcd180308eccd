//! Turns a class's variables, bodies and overrides to the part of an image.

ghost use Rattle.som_image_encode.specs.NumberedClasses.{BodyReady, ClassKnown, OverrideReady, body_numbered, override_numbered, part_numbered, variable_numbered};
ghost use Rattle.som_image_encode.specs.Numbering.{IsDirectory, IsValue};
ghost use Rattle.som_order.specs.Names.{texts};
ghost use Rattle.std.specs.Prelude.{◌≡◌, map, All, IfOk};

use crate::lookup::{number_kind, number_method};
use crate::number_block;
use indexmap::IndexSet;
use som_image_decode::Directory;
use som_image_fields::{WireBody, WireOverride, WirePart, WireVariable};
use som_model::{Body, ClassDecl, List, NoMemory, Override, Variable};
use std::alloc::Global;

#[tactic(auto, using(crate::proofs::Numbering::as_type))]
fn number_variable(
    alloc: Global,
    names: &IndexSet<&[u8]>,
    directory: &Directory,
    variable: &Variable,
) -> Result<WireVariable, NoMemory>
    requires directory { IsDirectory (texts names.now.keys) directory.now }
    requires known { IsValue directory.now.keys variable.now.kind }
    ensures { IfOk result (λ numbered. numbered ≡ variable_numbered directory.now.keys variable.now) }
{
    Ok(WireVariable {
        name: variable.name.copy(alloc)?,
        kind: number_kind(directory, names, &variable.kind),
    })
}

fn number_variables(
    alloc: Global,
    names: &IndexSet<&[u8]>,
    directory: &Directory,
    variables: &List<Variable>,
) -> Result<List<WireVariable>, NoMemory>
    requires directory { IsDirectory (texts names.now.keys) directory.now }
    requires known { All (λ v. IsValue directory.now.keys v.kind) variables.now }
    ensures { IfOk result (λ numbered. numbered ≡ map (variable_numbered directory.now.keys) variables.now) }
{
    let mut numbered = List::new(alloc);
    for variable in variables.as_slice() {
        numbered.push(number_variable(alloc, names, directory, variable)?)?;
    }
    Ok(numbered)
}

fn number_body(
    alloc: Global,
    names: &IndexSet<&[u8]>,
    directory: &Directory,
    body: &Body,
) -> Result<WireBody, NoMemory>
    requires directory { IsDirectory (texts names.now.keys) directory.now }
    requires ready { BodyReady directory.now body.now }
    ensures { IfOk result (λ numbered. numbered ≡ body_numbered directory.now body.now) }
{
    match body {
        Body::User(block) => Ok(WireBody::User(number_block(alloc, directory, names, block)?)),
        Body::Get(variable) => Ok(WireBody::Get(*variable)),
        Body::Set(variable) => Ok(WireBody::Set(*variable)),
    }
}

fn number_bodies(
    alloc: Global,
    names: &IndexSet<&[u8]>,
    directory: &Directory,
    bodies: &List<Body>,
) -> Result<List<WireBody>, NoMemory>
    requires directory { IsDirectory (texts names.now.keys) directory.now }
    requires ready { All (BodyReady directory.now) bodies.now }
    ensures { IfOk result (λ numbered. numbered ≡ map (body_numbered directory.now) bodies.now) }
{
    let mut numbered = List::new(alloc);
    for body in bodies.as_slice() {
        numbered.push(number_body(alloc, names, directory, body)?)?;
    }
    Ok(numbered)
}

fn number_override(
    alloc: Global,
    names: &IndexSet<&[u8]>,
    directory: &Directory,
    replaced: &Override,
) -> Result<WireOverride, NoMemory>
    requires directory { IsDirectory (texts names.now.keys) directory.now }
    requires ready { OverrideReady directory.now replaced.now }
    ensures { IfOk result (λ numbered. numbered ≡ override_numbered directory.now replaced.now) }
{
    Ok(WireOverride {
        method: number_method(directory, names, &replaced.method),
        block: number_block(alloc, directory, names, &replaced.block)?,
    })
}

fn number_overrides(
    alloc: Global,
    names: &IndexSet<&[u8]>,
    directory: &Directory,
    overrides: &List<Override>,
) -> Result<List<WireOverride>, NoMemory>
    requires directory { IsDirectory (texts names.now.keys) directory.now }
    requires ready { All (OverrideReady directory.now) overrides.now }
    ensures { IfOk result (λ numbered. numbered ≡ map (override_numbered directory.now) overrides.now) }
{
    let mut numbered = List::new(alloc);
    for replaced in overrides.as_slice() {
        numbered.push(number_override(alloc, names, directory, replaced)?)?;
    }
    Ok(numbered)
}

/// The part of an image that stands for what a class has beside its face.
pub fn number_part(
    alloc: Global,
    names: &IndexSet<&[u8]>,
    directory: &Directory,
    class: &ClassDecl,
) -> Result<WirePart, NoMemory>
    requires directory { IsDirectory (texts names.now.keys) directory.now }
    requires known { ClassKnown directory.now class.now }
    ensures { IfOk result (λ numbered. numbered ≡ part_numbered directory.now class.now) }
{
    Ok(WirePart {
        variables: number_variables(alloc, names, directory, &class.variables)?,
        bodies: number_bodies(alloc, names, directory, &class.bodies)?,
        overrides: number_overrides(alloc, names, directory, &class.overrides)?,
    })
}
