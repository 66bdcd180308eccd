//! Checks that metaclasses descend from SOMClass (S4).

ghost use Rattle.som_model.specs.Classes.{class_at, is_a};
ghost use Rattle.som_model.specs.Conforming.{each_after};
ghost use Rattle.som_model.specs.Kernel.{kernel, som_class};
ghost use Rattle.som_model.specs.Lists.{every, first, option_list};
ghost use Rattle.som_model.specs.Rules.{s2, s4};
ghost use Rattle.som_order.specs.Names.{texts};
ghost use Rattle.som_verify_classes.specs.Modules.{class_of, classes_of};
ghost use Rattle.som_verify_classes.specs.Places.{IsTable, with_kernel};
ghost use Rattle.som_verify_classes.specs.Told.{Tells};
ghost use Rattle.som_verify_classes.specs.Walk.{AreLists};
ghost use Rattle.std.specs.Prelude.{◌≡◌, true, drop, flat_map, is_some, None};

use indexmap::IndexSet;
use som_model::{ClassKey, List};
use som_verify_classes::{
    Declared, KERNEL_CLASSES, SOM_CLASS, VerifyFault, find_class, has_place, item, refusal,
};
use std::alloc::Global;

/// S4: each metaclass descends from SOMClass. It is asked of the classes from a place on.
pub fn metaclasses_descend(
    alloc: Global,
    table: &IndexSet<&[u8]>,
    classes: &[Declared],
    lists: &[List<usize>],
    from: usize,
) -> Result<(), VerifyFault>
    requires table { IsTable (classes_of classes.now) (texts table.now.keys) }
    requires lists { AreLists (with_kernel (classes_of classes.now)) lists.now }
    requires stand { first (each_after s2 kernel (classes_of classes.now)) ≡ None }
    ensures { Tells (first (flat_map (s4 (with_kernel (classes_of classes.now))) (classes_of (drop from classes.now)))) result }
{
    for place in from..classes.len() {
        own_metaclass_descends(alloc, table, classes, lists, &classes[place])?;
    }
    Ok(())
}

fn own_metaclass_descends(
    alloc: Global,
    table: &IndexSet<&[u8]>,
    classes: &[Declared],
    lists: &[List<usize>],
    class: &Declared,
) -> Result<(), VerifyFault>
    requires table { IsTable (classes_of classes.now) (texts table.now.keys) }
    requires lists { AreLists (with_kernel (classes_of classes.now)) lists.now }
    requires known { every (λ k. is_some (class_at (with_kernel (classes_of classes.now)) k))
        (option_list class.now.decl.now.face.metaclass) ≡ true }
    ensures { Tells (first (s4 (with_kernel (classes_of classes.now)) (class_of class.now))) result }
{
    let decl = class.decl;
    if !descends(table, classes, lists, &decl.face.metaclass) {
        return Err(refusal(alloc, 4, decl, b"-"));
    }
    Ok(())
}

fn descends(
    table: &IndexSet<&[u8]>,
    classes: &[Declared],
    lists: &[List<usize>],
    metaclass: &Option<ClassKey>,
) -> bool
    requires table { IsTable (classes_of classes.now) (texts table.now.keys) }
    requires lists { AreLists (with_kernel (classes_of classes.now)) lists.now }
    requires known { every (λ k. is_some (class_at (with_kernel (classes_of classes.now)) k)) (option_list metaclass.now) ≡ true }
    ensures { result ≡ every (λ k. is_a (with_kernel (classes_of classes.now)) k som_class) (option_list metaclass.now) }
{
    match metaclass {
        None => true,
        Some(key) => makes_classes(table, classes, lists, key),
    }
}

// Whether a class that is known descends from SOMClass.
fn makes_classes(
    table: &IndexSet<&[u8]>,
    classes: &[Declared],
    lists: &[List<usize>],
    key: &ClassKey,
) -> bool
    requires table { IsTable (classes_of classes.now) (texts table.now.keys) }
    requires lists { AreLists (with_kernel (classes_of classes.now)) lists.now }
    requires known { is_some (class_at (with_kernel (classes_of classes.now)) key.now) ≡ true }
    ensures { result ≡ is_a (with_kernel (classes_of classes.now)) key.now som_class }
{
    match find_class(table, classes, key, classes.len() + KERNEL_CLASSES) {
        None => false,
        Some(place) => has_place(item(lists, place), SOM_CLASS),
    }
}
