//! Checks that the names of a class's release order differ (S6), and those of its variables (S7).

ghost use Rattle.som_model.specs.Class.{entry_name};
ghost use Rattle.som_model.specs.Lists.{first};
ghost use Rattle.som_model.specs.Rules.{s6, s7};
ghost use Rattle.som_order.specs.Names.{texts};
ghost use Rattle.som_verify_classes.specs.Along.{doubles_breach};
ghost use Rattle.som_verify_classes.specs.Modules.{class_of, classes_of};
ghost use Rattle.som_verify_classes.specs.Told.{Tells};
ghost use Rattle.std.specs.Prelude.{◌≡◌, map, flat_map, IfOk};

use som_model::{Entry, NoMemory, Variable};
use som_order::name_of;
use som_verify_classes::{Declared, VerifyFault, refusal};
use som_verify_parents::{add, first_double};
use std::alloc::Global;

/// S6: the names of a release order are distinct.
pub fn entries_differ(alloc: Global, classes: &[Declared]) -> Result<(), VerifyFault>
    ensures { Tells (first (flat_map s6 (classes_of classes.now))) result }
{
    for class in classes {
        own_entries_differ(alloc, class)?;
    }
    Ok(())
}

fn own_entries_differ(alloc: Global, class: &Declared) -> Result<(), VerifyFault>
    ensures { Tells (first (s6 (class_of class.now))) result }
{
    let names = entry_names(alloc, class.decl.face.entries.as_slice())?;
    each_once(alloc, 6, class, &names)
}

fn entry_names(alloc: Global, entries: &[Entry]) -> Result<Vec<&[u8]>, NoMemory>
    ensures { IfOk result (λ names. texts names.items ≡ map entry_name entries.now) }
{
    let mut names = Vec::new(alloc);
    for entry in entries {
        add(&mut names, name_of(entry).as_slice())?;
    }
    Ok(names)
}

/// S7: the names of a class's variables are distinct.
pub fn variables_differ(alloc: Global, classes: &[Declared]) -> Result<(), VerifyFault>
    ensures { Tells (first (flat_map s7 (classes_of classes.now))) result }
{
    for class in classes {
        own_variables_differ(alloc, class)?;
    }
    Ok(())
}

fn own_variables_differ(alloc: Global, class: &Declared) -> Result<(), VerifyFault>
    ensures { Tells (first (s7 (class_of class.now))) result }
{
    let names = variable_names(alloc, class.decl.variables.as_slice())?;
    each_once(alloc, 7, class, &names)
}

fn variable_names(alloc: Global, variables: &[Variable]) -> Result<Vec<&[u8]>, NoMemory>
    ensures { IfOk result (λ names. texts names.items ≡ map (λ v. v.name) variables.now) }
{
    let mut names = Vec::new(alloc);
    for variable in variables {
        add(&mut names, variable.name.as_slice())?;
    }
    Ok(names)
}

/// A rule that no name stands twice, for some names of a class.
pub fn each_once(
    alloc: Global,
    rule: u8,
    class: &Declared,
    names: &[&[u8]],
) -> Result<(), VerifyFault>
    ensures { Tells (first (doubles_breach rule (class_of class.now) (texts names.now))) result }
{
    match first_double(alloc, names)? {
        None => Ok(()),
        Some(name) => Err(refusal(alloc, rule, class.decl, name)),
    }
}
