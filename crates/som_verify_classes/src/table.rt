//! The class table: checks that names of classes differ, and looks up the place of a class by its key.

ghost use Rattle.som_model.specs.Conforming.{each_after};
ghost use Rattle.som_model.specs.Kernel.{kernel};
ghost use Rattle.som_model.specs.Keys.{same_module};
ghost use Rattle.som_model.specs.Lists.{first};
ghost use Rattle.som_model.specs.Rules.{name_of, s1};
ghost use Rattle.som_model.specs.declared.key.ClassKey.TheVariants as keys;
ghost use Rattle.som_order.specs.Names.{texts};
ghost use Rattle.som_verify_classes.specs.Modules.{classes_of};
ghost use Rattle.som_verify_classes.specs.Places.{Finds, IsTable, module_at, with_kernel};
ghost use Rattle.som_verify_classes.specs.Told.{Tells};
ghost use Rattle.std.specs.Prelude.{◌≡◌, ◌<◌, [], length, map, IfOk, OnOk};

use crate::pass::refusal;
use crate::types::{Declared, VerifyFault};
use indexmap::IndexSet;
use som_model::{ClassKey, Module, NoMemory};
use som_order::{find_name, note_name};
use std::alloc::Global;

/// The number of the kernel's classes, which stand before the declared ones.
pub const KERNEL_CLASSES: usize = 4;

/// The place of the class of classes.
pub const SOM_CLASS: usize = 1;

/// The place of the class of the class manager.
pub const SOM_CLASS_MGR: usize = 2;

/// S1: no two classes, the kernel's counted, have one name. Answers the names in order.
pub fn class_names<'a>(
    alloc: Global,
    classes: &[Declared<'a>],
) -> Result<IndexSet<&'a [u8]>, VerifyFault>
    ensures tells { Tells (first (each_after s1 kernel (classes_of classes.now))) result }
    ensures table { IfOk result (λ table. IsTable (classes_of classes.now) (texts table.keys)) }
{
    let mut seen = kernel_names(alloc)?;
    note_classes(alloc, &mut seen, classes)?;
    Ok(seen)
}

// Notes the names of classes after the kernel's, if no two are one.
fn note_classes<'a>(
    alloc: Global,
    seen: &mut IndexSet<&'a [u8]>,
    classes: &[Declared<'a>],
) -> Result<(), VerifyFault>
    requires { texts seen.old.keys ≡ map name_of kernel }
    ensures tells { Tells (first (each_after s1 kernel (classes_of classes.now))) result }
    ensures table { OnOk result (IsTable (classes_of classes.now) (texts seen.new.keys)) }
{
    for class in classes {
        let decl = class.decl;
        if !note_name(seen, decl.face.name.as_slice())? {
            return Err(refusal(alloc, 1, decl, b"-"));
        }
    }
    Ok(())
}

fn kernel_names<'a>(alloc: Global) -> Result<IndexSet<&'a [u8]>, NoMemory>
    ensures { IfOk result (λ names. texts names.keys ≡ map name_of kernel) }
{
    let mut names = IndexSet::new(alloc);
    note_kernel(&mut names)?;
    Ok(names)
}

fn note_kernel<'a>(names: &mut IndexSet<&'a [u8]>) -> Result<(), NoMemory>
    requires { texts names.old.keys ≡ [] }
    ensures { OnOk result (texts names.new.keys ≡ map name_of kernel) }
{
    let _first = note_name(names, b"SOMObject")?;
    let _second = note_name(names, b"SOMClass")?;
    let _third = note_name(names, b"SOMClassMgr")?;
    let _fourth = note_name(names, b"SOMMBeforeAfter")?;
    Ok(())
}

/// The place of a class, if it is below the limit.
pub fn find_class(
    table: &IndexSet<&[u8]>,
    classes: &[Declared],
    key: &ClassKey,
    limit: usize,
) -> Option<usize>
    requires { IsTable (classes_of classes.now) (texts table.now.keys) }
    ensures { Finds limit (with_kernel (classes_of classes.now)) key.now result }
{
    match key {
        ClassKey::Named { module: home, name } => {
            find_named(table, classes, *home, name.as_slice(), limit)
        }
        ClassKey::Derived { .. } => None,
        ClassKey::Proxy { .. } => None,
    }
}

fn find_named(
    table: &IndexSet<&[u8]>,
    classes: &[Declared],
    home: Module,
    name: &[u8],
    limit: usize,
) -> Option<usize>
    requires { IsTable (classes_of classes.now) (texts table.now.keys) }
    ensures { Finds limit (with_kernel (classes_of classes.now)) (keys.Named home name.now) result }
{
    match find_name(table, name) {
        None => None,
        Some(place) => {
            if place < limit && stands_in(classes, home, place) {
                Some(place)
            } else {
                None
            }
        }
    }
}

// Whether the class at a place is of the module.
fn stands_in(classes: &[Declared], home: Module, place: usize) -> bool
    requires { place < length (with_kernel (classes_of classes.now)) }
    ensures { result ≡ same_module home (module_at (with_kernel (classes_of classes.now)) place) }
{
    if place < KERNEL_CLASSES {
        is_module(home, Module::Kernel)
    } else {
        is_module(home, classes[place - KERNEL_CLASSES].module)
    }
}

fn is_module(home: Module, other: Module) -> bool
    ensures { result ≡ same_module home other }
{
    home == other
}
