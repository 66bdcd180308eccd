//! Reads the part of a class to what it stands for: variables, bodies and overrides with names.

ghost use Rattle.som_image_classes.specs.NamedReading.{
  named_bodies_at,
  named_body_at,
  named_override_at,
  named_overrides_at,
  named_part_at,
  named_variable_at,
  named_variables_at,
};
ghost use Rattle.som_image_decode.specs.Naming.{ranges_in};
ghost use Rattle.som_image_fields.specs.Fields.{Gives};
ghost use Rattle.std.specs.Prelude.{◌≡◌, ◌≤◌, length, IfOk};

use som_image_bodies::read_block;
use som_image_decode::{Directory, name_kind};
use som_image_fields::{
    ImageFault, Ranges, Read, read_many, read_method, read_text, read_type, read_u8, read_u16,
};
use som_model::{Body, ClassKey, List, MAX_OVERRIDES, MAX_VARIABLES, Override, Variable};
use std::alloc::Global;

/// What the part of a class stands for.
#[derive(Drop)]
pub struct NamedPart {
    pub variables: List<Variable>,
    pub bodies: List<Body>,
    pub overrides: List<Override>,
}

#[tactic(auto, using(som_image_decode::proofs::Naming::as_result), unfolding(crate::specs::NamedReading::named_variable_at))]
fn read_variable(
    alloc: Global,
    bytes: &List<u8>,
    place: usize,
    keys: &List<ClassKey>,
    classes: u16,
) -> Result<Read<Variable>, ImageFault>
    requires place { place ≤ length bytes.now }
    requires classes { classes ≡ length keys.now }
    ensures exact { Gives result (named_variable_at keys.now classes bytes.now place) }
    ensures next { IfOk result (λ r. r.next ≤ length bytes.now) }
{
    let name = read_text(alloc, bytes, place)?;
    let kind = read_type(bytes, name.next, classes, false)?;
    Ok(Read {
        value: Variable {
            name: name.value,
            kind: name_kind(alloc, keys, &kind.value)?,
        },
        next: kind.next,
    })
}

#[tactic(auto, unfolding(crate::specs::NamedReading::named_body_at))]
fn read_body(
    alloc: Global,
    bytes: &List<u8>,
    place: usize,
    directory: &Directory,
    ranges: &Ranges,
) -> Result<Read<Body>, ImageFault>
    requires place { place ≤ length bytes.now }
    requires entries { length ranges.now.entries ≡ ranges.now.classes }
    requires ranges { ranges.now ≡ ranges_in directory.now }
    ensures exact { Gives result (named_body_at directory.now ranges.now bytes.now place) }
    ensures next { IfOk result (λ r. r.next ≤ length bytes.now) }
{
    let tag = read_u8(bytes, place)?;
    match tag.value {
        0 => {
            let block = read_block(alloc, bytes, tag.next, directory, ranges, 1)?;
            Ok(Read {
                value: Body::User(block.value),
                next: block.next,
            })
        }
        1 => {
            let variable = read_u8(bytes, tag.next)?;
            Ok(Read {
                value: Body::Get(variable.value),
                next: variable.next,
            })
        }
        2 => {
            let variable = read_u8(bytes, tag.next)?;
            Ok(Read {
                value: Body::Set(variable.value),
                next: variable.next,
            })
        }
        _ => Err(ImageFault::Tag { offset: place }),
    }
}

#[tactic(auto, unfolding(crate::specs::NamedReading::named_override_at))]
fn read_override(
    alloc: Global,
    bytes: &List<u8>,
    place: usize,
    directory: &Directory,
    ranges: &Ranges,
) -> Result<Read<Override>, ImageFault>
    requires place { place ≤ length bytes.now }
    requires entries { length ranges.now.entries ≡ ranges.now.classes }
    requires ranges { ranges.now ≡ ranges_in directory.now }
    ensures exact { Gives result (named_override_at directory.now ranges.now bytes.now place) }
    ensures next { IfOk result (λ r. r.next ≤ length bytes.now) }
{
    let method = read_method(bytes, place, ranges)?;
    let block = read_block(alloc, bytes, method.next, directory, ranges, 1)?;
    Ok(Read {
        value: Override {
            method: directory.method(alloc, method.value)?,
            block: block.value,
        },
        next: block.next,
    })
}

fn read_variables(
    alloc: Global,
    bytes: &List<u8>,
    place: usize,
    keys: &List<ClassKey>,
    classes: u16,
) -> Result<Read<List<Variable>>, ImageFault>
    requires place { place ≤ length bytes.now }
    requires classes { classes ≡ length keys.now }
    ensures exact { Gives result (named_variables_at keys.now classes bytes.now place) }
    ensures next { IfOk result (λ r. r.next ≤ length bytes.now) }
{
    let count = read_u8(bytes, place)?;
    let variables = u32::from(count.value);
    if variables > MAX_VARIABLES {
        return Err(ImageFault::Number { offset: place });
    }
    read_many(
        alloc,
        bytes,
        variables,
        count.next,
        |p: usize| -> Result<Read<Variable>, ImageFault>
            requires place { p ≤ length bytes.now }
            requires classes { classes ≡ length keys.now }
            ensures exact { Gives result (named_variable_at keys.entry.now classes bytes.entry.now p) }
            ensures next { IfOk result (λ r. r.next ≤ length bytes.entry.now) }
        { read_variable(alloc, bytes, p, keys, classes) },
    )
}

fn read_bodies(
    alloc: Global,
    bytes: &List<u8>,
    place: usize,
    directory: &Directory,
    ranges: &Ranges,
    introduced: u16,
) -> Result<Read<List<Body>>, ImageFault>
    requires place { place ≤ length bytes.now }
    requires entries { length ranges.now.entries ≡ ranges.now.classes }
    requires ranges { ranges.now ≡ ranges_in directory.now }
    ensures exact { Gives result (named_bodies_at directory.now ranges.now introduced bytes.now place) }
    ensures next { IfOk result (λ r. r.next ≤ length bytes.now) }
{
    read_many(
        alloc,
        bytes,
        u32::from(introduced),
        place,
        |p: usize| -> Result<Read<Body>, ImageFault>
            requires place { p ≤ length bytes.now }
            requires entries { length ranges.now.entries ≡ ranges.now.classes }
            requires ranges { ranges.now ≡ ranges_in directory.now }
            ensures exact { Gives result (named_body_at directory.entry.now ranges.entry.now bytes.entry.now p) }
            ensures next { IfOk result (λ r. r.next ≤ length bytes.entry.now) }
        { read_body(alloc, bytes, p, directory, ranges) },
    )
}

fn read_overrides(
    alloc: Global,
    bytes: &List<u8>,
    place: usize,
    directory: &Directory,
    ranges: &Ranges,
) -> Result<Read<List<Override>>, ImageFault>
    requires place { place ≤ length bytes.now }
    requires entries { length ranges.now.entries ≡ ranges.now.classes }
    requires ranges { ranges.now ≡ ranges_in directory.now }
    ensures exact { Gives result (named_overrides_at directory.now ranges.now bytes.now place) }
    ensures next { IfOk result (λ r. r.next ≤ length bytes.now) }
{
    let count = read_u16(bytes, place)?;
    let overrides = u32::from(count.value);
    if overrides > MAX_OVERRIDES {
        return Err(ImageFault::Number { offset: place });
    }
    read_many(
        alloc,
        bytes,
        overrides,
        count.next,
        |p: usize| -> Result<Read<Override>, ImageFault>
            requires place { p ≤ length bytes.now }
            requires entries { length ranges.now.entries ≡ ranges.now.classes }
            requires ranges { ranges.now ≡ ranges_in directory.now }
            ensures exact { Gives result (named_override_at directory.entry.now ranges.entry.now bytes.entry.now p) }
            ensures next { IfOk result (λ r. r.next ≤ length bytes.entry.now) }
        { read_override(alloc, bytes, p, directory, ranges) },
    )
}

/// Reads the part of a class at a place, with as many bodies as are due: one for each entry that the class introduces.
#[tactic(auto, unfolding(crate::specs::NamedReading::named_part_at))]
pub(crate) fn read_part(
    alloc: Global,
    bytes: &List<u8>,
    place: usize,
    directory: &Directory,
    ranges: &Ranges,
    introduced: u16,
) -> Result<Read<NamedPart>, ImageFault>
    requires place { place ≤ length bytes.now }
    requires entries { length ranges.now.entries ≡ ranges.now.classes }
    requires ranges { ranges.now ≡ ranges_in directory.now }
    ensures exact { Gives result (named_part_at directory.now ranges.now introduced bytes.now place) }
    ensures next { IfOk result (λ r. r.next ≤ length bytes.now) }
{
    let variables = read_variables(alloc, bytes, place, &directory.keys, ranges.classes)?;
    let bodies = read_bodies(alloc, bytes, variables.next, directory, ranges, introduced)?;
    let overrides = read_overrides(alloc, bytes, bodies.next, directory, ranges)?;
    Ok(Read {
        value: NamedPart {
            variables: variables.value,
            bodies: bodies.value,
            overrides: overrides.value,
        },
        next: overrides.next,
    })
}
