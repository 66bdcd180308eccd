//! Checks the selects of a class (S10): each names a parent that descends from the method's owner.

ghost use Rattle.som_model.specs.Classes.{class_at, is_a};
ghost use Rattle.som_model.specs.Kernel.{kernel_interface};
ghost use Rattle.som_model.specs.Lists.{Mem, first};
ghost use Rattle.som_model.specs.Rules.{is_parent_below, s9};
ghost use Rattle.som_model.specs.declared.key.ClassKey.{ClassKey as Key};
ghost use Rattle.som_order.specs.Names.{texts};
ghost use Rattle.som_verify_classes.specs.Inherited.{may_select as allowed, method_of, selects_from};
ghost use Rattle.som_verify_classes.specs.Modules.{class_of, classes_of};
ghost use Rattle.som_verify_classes.specs.Places.{IsTable, key_at, with_kernel};
ghost use Rattle.som_verify_classes.specs.Told.{Tells};
ghost use Rattle.som_verify_classes.specs.Walk.{AreLists};
ghost use Rattle.std.specs.Prelude.{◌≡◌, ◌<◌, true, length, map, flat_map, is_some, slice_get, None};

use crate::overrides::may_override;
use indexmap::IndexSet;
use som_model::{ClassFace, ClassKey, List};
use som_verify_classes::{
    Declared, KERNEL_CLASSES, Method, VerifyFault, descends_by, find_class, owner_of, refusal,
};
use std::alloc::Global;

/// S10, of the selects of the class at a place, after these methods.
pub fn selects_follow<'a>(
    alloc: Global,
    table: &IndexSet<&[u8]>,
    kernel: &'a [ClassFace],
    classes: &[Declared<'a>],
    lists: &[List<usize>],
    place: usize,
    class: &Declared<'a>,
    before: &mut Vec<Method<'a>>,
) -> Result<(), VerifyFault>
    requires table { IsTable (classes_of classes.now) (texts table.now.keys) }
    requires kernel { kernel.now ≡ kernel_interface.classes }
    requires lists { AreLists (with_kernel (classes_of classes.now)) lists.now }
    requires moved { first (flat_map (s9 (with_kernel (classes_of classes.now))) (classes_of classes.now)) ≡ None }
    requires place { place < length (with_kernel (classes_of classes.now)) }
    requires parents { (k : Key) → Mem k class.now.decl.now.face.parents →
        is_some (class_at (with_kernel (classes_of classes.now)) k) ≡ true }
    ensures { Tells (first (selects_from (with_kernel (classes_of classes.now))
        (key_at (with_kernel (classes_of classes.now)) place) (class_of class.now) (map method_of before.old.items) class.now.decl.now.selects)) result }
{
    let decl = class.decl;
    let parents = decl.face.parents.as_slice();
    for item in decl.selects.as_slice() {
        let method = owner_of(table, kernel, classes, &item.method);
        let parent = usize::from(item.parent);
        if !may_select(
            table, kernel, classes, lists, place, before, &method, parents, parent,
        ) {
            return Err(refusal(alloc, 10, decl, item.method.name.as_slice()));
        }
        before.push(method)?;
    }
    Ok(())
}

// Whether the class at a place may take a method from the parent at a place of its own, after those before.
fn may_select(
    table: &IndexSet<&[u8]>,
    kernel: &[ClassFace],
    classes: &[Declared],
    lists: &[List<usize>],
    place: usize,
    before: &[Method],
    method: &Method,
    parents: &[ClassKey],
    parent: usize,
) -> bool
    requires table { IsTable (classes_of classes.now) (texts table.now.keys) }
    requires kernel { kernel.now ≡ kernel_interface.classes }
    requires lists { AreLists (with_kernel (classes_of classes.now)) lists.now }
    requires place { place < length (with_kernel (classes_of classes.now)) }
    requires parents { (k : Key) → Mem k parents.now → is_some (class_at (with_kernel (classes_of classes.now)) k) ≡ true }
    ensures { result ≡ allowed (with_kernel (classes_of classes.now)) (key_at (with_kernel (classes_of classes.now)) place)
        (map method_of before.now) (method_of method.now) (slice_get parents.now parent) }
{
    may_override(table, kernel, classes, lists, place, before, method)
        && parent_descends(table, classes, lists, parents, parent, method.class)
}

// Whether there is a parent at that place, and it descends from a class.
fn parent_descends(
    table: &IndexSet<&[u8]>,
    classes: &[Declared],
    lists: &[List<usize>],
    parents: &[ClassKey],
    parent: usize,
    ancestor: &ClassKey,
) -> bool
    requires table { IsTable (classes_of classes.now) (texts table.now.keys) }
    requires lists { AreLists (with_kernel (classes_of classes.now)) lists.now }
    requires parents { (k : Key) → Mem k parents.now → is_some (class_at (with_kernel (classes_of classes.now)) k) ≡ true }
    ensures { result ≡ is_parent_below (with_kernel (classes_of classes.now)) ancestor.now (slice_get parents.now parent) }
{
    if parent < parents.len() {
        descends(table, classes, lists, &parents[parent], ancestor)
    } else {
        false
    }
}

// Whether a class that is known descends from another.
fn descends(
    table: &IndexSet<&[u8]>,
    classes: &[Declared],
    lists: &[List<usize>],
    class: &ClassKey,
    ancestor: &ClassKey,
) -> bool
    requires table { IsTable (classes_of classes.now) (texts table.now.keys) }
    requires lists { AreLists (with_kernel (classes_of classes.now)) lists.now }
    requires known { is_some (class_at (with_kernel (classes_of classes.now)) class.now) ≡ true }
    ensures { result ≡ is_a (with_kernel (classes_of classes.now)) class.now ancestor.now }
{
    let limit = classes.len() + KERNEL_CLASSES;
    match find_class(table, classes, class, limit) {
        None => false,
        Some(place) => match find_class(table, classes, ancestor, limit) {
            None => false,
            Some(above) => descends_by(lists, place, above),
        },
    }
}
