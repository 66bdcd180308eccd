//! The accessors `_get_` and `_set_` of an interface's attributes.

ghost use Rattle.som_elab_methods.specs.Accessors as spec;
ghost use Rattle.som_elab_methods.specs.Accessors.{Access, access, attribute_accessors, export_accessors};
ghost use Rattle.som_elab_methods.specs.Tables.{accessed};
ghost use Rattle.som_model.specs.Lists.{find};
ghost use Rattle.som_ast.specs.declared.words.Word.{Word as Named};
ghost use Rattle.som_sema_names.specs.Noted.{IsKnown};
ghost use Rattle.std.specs.Prelude.{◌≡◌, ◌++◌, map, flat_map, option_map, option_copied, slice_get, IfOk, OnOk};
ghost use Rattle.std.specs.Str.{bytes_eq};

use som_ast::{Export, IdlInterface, Word};
use som_model::{NoMemory, Text};
use som_sema_drafts::prefixed;
use som_sema_names::{Places, first_place, note, place_table};
use std::alloc::Global;

/// A method that reads or sets an attribute: its name, the attribute as the text has it, and whether it sets.
#[derive(Drop)]
pub struct Accessor<'a> {
    pub name: Text,
    pub attribute: &'a [u8],
    pub sets: bool,
}

/// The accessors that an interface declares, in the order of its attributes, each reader before its writer.
pub fn accessors_of(alloc: Global, text: &IdlInterface) -> Result<Vec<Accessor<'_>>, NoMemory>
    ensures { IfOk result (λ all. map access all.items ≡ spec.accessors_of text.now) }
{
    let mut all = Vec::new(alloc);
    add_exports(alloc, &mut all, text.before.as_slice())?;
    add_exports(alloc, &mut all, text.after.as_slice())?;
    Ok(all)
}

fn add_exports<'a>(
    alloc: Global,
    all: &mut Vec<Accessor<'a>>,
    exports: &'a [Export],
) -> Result<(), NoMemory>
    ensures { OnOk result (map access all.new.items ≡ map access all.old.items ++ flat_map export_accessors exports.now) }
{
    for export in exports {
        add_export(alloc, all, export)?;
    }
    Ok(())
}

fn add_export<'a>(
    alloc: Global,
    all: &mut Vec<Accessor<'a>>,
    export: &'a Export,
) -> Result<(), NoMemory>
    ensures { OnOk result (map access all.new.items ≡ map access all.old.items ++ export_accessors export.now) }
{
    match export {
        Export::Attribute {
            readonly,
            names,
            ..
        } => add_attributes(alloc, all, *readonly, names.as_slice()),
        Export::Operation { .. } => Ok(()),
    }
}

fn add_attributes<'a>(
    alloc: Global,
    all: &mut Vec<Accessor<'a>>,
    readonly: bool,
    names: &'a [Word],
) -> Result<(), NoMemory>
    ensures { OnOk result (map access all.new.items ≡ map access all.old.items ++
        flat_map (λ (w : Named). attribute_accessors readonly w.text) names.now) }
{
    for word in names {
        add_attribute(alloc, all, readonly, word.text.as_slice())?;
    }
    Ok(())
}

fn add_attribute<'a>(
    alloc: Global,
    all: &mut Vec<Accessor<'a>>,
    readonly: bool,
    attribute: &'a [u8],
) -> Result<(), NoMemory>
    ensures { OnOk result (map access all.new.items ≡ map access all.old.items ++ attribute_accessors readonly attribute.now) }
{
    all.push(Accessor {
        name: prefixed(alloc, b"_get_", attribute)?,
        attribute,
        sets: false,
    })?;
    if !readonly {
        all.push(Accessor {
            name: prefixed(alloc, b"_set_", attribute)?,
            attribute,
            sets: true,
        })?;
    }
    Ok(())
}

/// A table of the names of accessors.
pub fn accessor_places<'a>(alloc: Global, accessors: &'a [Accessor]) -> Result<Places<'a>, NoMemory>
    ensures { IfOk result (IsKnown (accessed 0 (map access accessors.now))) }
{
    let mut all = Vec::new(alloc);
    for place in 0..accessors.len() {
        note(&mut all, accessors[place].name.as_slice(), place)?;
    }
    place_table(alloc, &all)
}

/// The first accessor of this name, if there is one, by the table of their names.
pub fn accessor_named<'a>(
    accessors: &'a [Accessor],
    places: &Places,
    name: &[u8],
) -> Option<&'a Accessor<'a>>
    requires { IsKnown (accessed 0 (map access accessors.now)) places.now }
    ensures { option_map access (option_copied result) ≡ find (λ (a : Access). bytes_eq name.now a.name) (map access accessors.now) }
{
    match first_place(places, name) {
        None => None,
        Some(place) => accessor_in(accessors, place),
    }
}

fn accessor_in<'a>(accessors: &'a [Accessor], place: usize) -> Option<&'a Accessor<'a>>
    ensures { option_copied result ≡ slice_get accessors.now place }
{
    accessors.get(place)
}
