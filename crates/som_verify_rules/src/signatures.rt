//! Checks the types of signatures and variables (S5): each class is known, and void is a result alone.

ghost use Rattle.som_model.specs.Lists.{every, first};
ghost use Rattle.som_model.specs.Rules.{is_known, is_value_type, s5};
ghost use Rattle.som_order.specs.Names.{texts};
ghost use Rattle.som_verify_classes.specs.Modules.{class_of, classes_of};
ghost use Rattle.som_verify_classes.specs.Places.{IsTable, with_kernel};
ghost use Rattle.som_verify_classes.specs.Told.{Tells};
ghost use Rattle.som_verify_classes.specs.Typed.{entry_types, sig_types, variable_types};
ghost use Rattle.std.specs.Prelude.{◌≡◌, take, flat_map};

use crate::known::{type_is_known, type_is_of_value};
use indexmap::IndexSet;
use som_model::{Entry, Sig, ValueType};
use som_verify_classes::{Declared, VerifyFault, refusal};
use std::alloc::Global;

/// S5: each type of a signature or variable names one of the first `number` classes, the kernel's counted, and only
/// a result is void.
pub fn types_known(
    alloc: Global,
    table: &IndexSet<&[u8]>,
    classes: &[Declared],
    number: usize,
    asked: &[Declared],
) -> Result<(), VerifyFault>
    requires { IsTable (classes_of classes.now) (texts table.now.keys) }
    ensures { Tells (first (flat_map (s5 (take number (with_kernel (classes_of classes.now)))) (classes_of asked.now))) result }
{
    for class in asked {
        own_types_known(alloc, table, classes, number, class)?;
    }
    Ok(())
}

fn own_types_known(
    alloc: Global,
    table: &IndexSet<&[u8]>,
    classes: &[Declared],
    number: usize,
    class: &Declared,
) -> Result<(), VerifyFault>
    requires { IsTable (classes_of classes.now) (texts table.now.keys) }
    ensures { Tells (first (s5 (take number (with_kernel (classes_of classes.now))) (class_of class.now))) result }
{
    signatures_known(alloc, table, classes, number, class)?;
    variables_known(alloc, table, classes, number, class)
}

fn signatures_known(
    alloc: Global,
    table: &IndexSet<&[u8]>,
    classes: &[Declared],
    number: usize,
    class: &Declared,
) -> Result<(), VerifyFault>
    requires { IsTable (classes_of classes.now) (texts table.now.keys) }
    ensures { Tells (first (flat_map (entry_types (take number (with_kernel (classes_of classes.now))) (class_of class.now))
        class.now.decl.now.face.entries)) result }
{
    let decl = class.decl;
    for entry in decl.face.entries.as_slice() {
        if let Entry::Introduced { name, sig, .. } = entry {
            if !sig_is_known(table, classes, number, sig) {
                return Err(refusal(alloc, 5, decl, name.as_slice()));
            }
        }
    }
    Ok(())
}

fn variables_known(
    alloc: Global,
    table: &IndexSet<&[u8]>,
    classes: &[Declared],
    number: usize,
    class: &Declared,
) -> Result<(), VerifyFault>
    requires { IsTable (classes_of classes.now) (texts table.now.keys) }
    ensures { Tells (first (flat_map (variable_types (take number (with_kernel (classes_of classes.now))) (class_of class.now))
        class.now.decl.now.variables)) result }
{
    let decl = class.decl;
    for variable in decl.variables.as_slice() {
        if !type_is_of_value(table, classes, number, &variable.kind) {
            return Err(refusal(alloc, 5, decl, variable.name.as_slice()));
        }
    }
    Ok(())
}

fn sig_is_known(table: &IndexSet<&[u8]>, classes: &[Declared], number: usize, sig: &Sig) -> bool
    requires { IsTable (classes_of classes.now) (texts table.now.keys) }
    ensures { result ≡ sig_types (take number (with_kernel (classes_of classes.now))) sig.now }
{
    type_is_known(table, classes, number, &sig.result)
        && are_values(table, classes, number, sig.params.as_slice())
}

fn are_values(
    table: &IndexSet<&[u8]>,
    classes: &[Declared],
    number: usize,
    kinds: &[ValueType],
) -> bool
    requires { IsTable (classes_of classes.now) (texts table.now.keys) }
    ensures { result ≡ every (is_value_type (take number (with_kernel (classes_of classes.now)))) kinds.now }
{
    for kind in kinds {
        if !type_is_of_value(table, classes, number, kind) {
            return false;
        }
    }
    true
}
