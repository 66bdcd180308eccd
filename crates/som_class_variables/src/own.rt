//! How many variables of its own a class has, and their types.

ghost use Rattle.som_class_table.specs.Loaded.{AreLoaded};
ghost use Rattle.som_meta.specs.Numbering.{AreNumbered, IsNumbered, key_at};
ghost use Rattle.som_class_variables.specs.Variables.{own_variables, types_of};
ghost use Rattle.std.specs.Prelude.{◌≡◌, ◌<◌, ◌++◌, OnOk, IfOk, flat_map, length, map};

use som_class_table::Classes;
use som_model::{List, NoMemory, ValueType, Variable};
use som_tables::ClassNo;
use std::alloc::Global;

/// The classes are loaded.
pub(crate) fn know_loaded(classes: &Classes)
    ensures { AreLoaded classes.now }
{
    let _count = classes.count();
}

/// How many variables of its own a class has.
pub(crate) fn own_count(classes: &Classes, class: ClassNo) -> u16
    requires { IsNumbered classes.now class }
    ensures { result ≡ length (own_variables classes.now.classes (key_at classes.now class)) }
{
    know_loaded(classes);
    if class.number() < classes.declared_count() {
        classes.declared(class).decl.variables.len() as u16
    } else {
        0
    }
}

/// Adds the types of these variables.
fn note_variables(
    alloc: Global,
    variables: &[Variable],
    types: &mut List<ValueType>,
) -> Result<(), NoMemory>
    ensures { OnOk result (types.new ≡ types.old ++ types_of variables.now) }
{
    for variable in variables {
        types.push(variable.kind.copy(alloc)?)?;
    }
    Ok(())
}

/// Adds the types of a class's own variables.
fn note_own(
    alloc: Global,
    classes: &Classes,
    class: ClassNo,
    types: &mut List<ValueType>,
) -> Result<(), NoMemory>
    requires { IsNumbered classes.now class }
    ensures { OnOk result (types.new ≡ types.old ++ own_variables classes.now.classes (key_at classes.now class)) }
{
    know_loaded(classes);
    if class.number() < classes.declared_count() {
        note_variables(
            alloc,
            classes.declared(class).decl.variables.as_slice(),
            types,
        )
    } else {
        Ok(())
    }
}

/// The types of the own variables of these classes, each class's after those before it.
pub(crate) fn types_of_all(
    alloc: Global,
    classes: &Classes,
    all: &[ClassNo],
) -> Result<List<ValueType>, NoMemory>
    requires { AreNumbered classes.now all.now }
    ensures { IfOk result (λ types. types ≡ flat_map (own_variables classes.now.classes) (map (key_at classes.now) all.now)) }
{
    let mut types = List::new(alloc);
    for class in all {
        note_own(alloc, classes, *class, &mut types)?;
    }
    Ok(types)
}
