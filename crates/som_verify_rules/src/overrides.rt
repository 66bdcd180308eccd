//! Checks that overrides and selects are of inherited methods, and that none stands twice (S10).

ghost use Rattle.som_model.specs.Conforming.{each_after};
ghost use Rattle.som_model.specs.Kernel.{kernel as kernels, kernel_interface};
ghost use Rattle.som_model.specs.Keys.{same_method};
ghost use Rattle.som_model.specs.Lists.{Mem, first, some};
ghost use Rattle.som_model.specs.Classes.{class_at};
ghost use Rattle.som_model.specs.Rules.{s2, s9, s10};
ghost use Rattle.som_model.specs.declared.key.ClassKey.{ClassKey};
ghost use Rattle.som_order.specs.Names.{texts};
ghost use Rattle.som_verify_classes.specs.Inherited.{may_override as allowed, method_of, overridden, overrides_from, replaced_from};
ghost use Rattle.som_verify_classes.specs.Modules.{class_of, classes_of};
ghost use Rattle.som_verify_classes.specs.Places.{IsTable, key_at, with_kernel};
ghost use Rattle.som_verify_classes.specs.Told.{Tells};
ghost use Rattle.som_verify_classes.specs.Walk.{AreLists};
ghost use Rattle.std.specs.Prelude.{◌≡◌, ◌<◌, ◌++◌, [], true, drop, length, map, flat_map, is_some, None, OnOk};

use crate::inherited::is_inherited;
use crate::selects::selects_follow;
use indexmap::IndexSet;
use som_model::{ClassFace, List, MethodRef};
use som_verify_classes::{
    Declared, KERNEL_CLASSES, Method, VerifyFault, entries_at, find_class, owner_of, refusal,
};
use std::alloc::Global;

/// S10: each override, and then each select, is of a method that a proper ancestor introduces, and none stands twice;
/// a select names a parent that descends from that ancestor. Methods go by their owners. It is asked of the classes
/// from a place on.
pub fn overrides_inherited(
    alloc: Global,
    table: &IndexSet<&[u8]>,
    kernel: &[ClassFace],
    classes: &[Declared],
    lists: &[List<usize>],
    from: usize,
) -> Result<(), VerifyFault>
    requires table { IsTable (classes_of classes.now) (texts table.now.keys) }
    requires kernel { kernel.now ≡ kernel_interface.classes }
    requires lists { AreLists (with_kernel (classes_of classes.now)) lists.now }
    requires stand { first (each_after s2 kernels (classes_of classes.now)) ≡ None }
    requires moved { first (flat_map (s9 (with_kernel (classes_of classes.now))) (classes_of classes.now)) ≡ None }
    ensures { Tells (first (flat_map (s10 (with_kernel (classes_of classes.now))) (classes_of (drop from classes.now)))) result }
{
    for place in from..classes.len() {
        let class = &classes[place];
        let place = place + KERNEL_CLASSES;
        own_overrides_inherited(alloc, table, &*kernel, &*classes, lists, place, &*class)?;
    }
    Ok(())
}

fn own_overrides_inherited<'a>(
    alloc: Global,
    table: &IndexSet<&[u8]>,
    kernel: &'a [ClassFace],
    classes: &[Declared<'a>],
    lists: &[List<usize>],
    place: usize,
    class: &Declared<'a>,
) -> Result<(), VerifyFault>
    requires table { IsTable (classes_of classes.now) (texts table.now.keys) }
    requires kernel { kernel.now ≡ kernel_interface.classes }
    requires lists { AreLists (with_kernel (classes_of classes.now)) lists.now }
    requires moved { first (flat_map (s9 (with_kernel (classes_of classes.now))) (classes_of classes.now)) ≡ None }
    requires place { place < length (with_kernel (classes_of classes.now)) }
    requires parents { (k : ClassKey) → Mem k class.now.decl.now.face.parents →
        is_some (class_at (with_kernel (classes_of classes.now)) k) ≡ true }
    ensures { Tells (first (replaced_from (with_kernel (classes_of classes.now))
        (key_at (with_kernel (classes_of classes.now)) place) (class_of class.now))) result }
{
    let mut before = Vec::new(alloc);
    overrides_follow(
        alloc,
        table,
        kernel,
        classes,
        lists,
        place,
        class,
        &mut before,
    )?;
    let mut replaced = before;
    selects_follow(
        alloc,
        table,
        kernel,
        classes,
        lists,
        place,
        class,
        &mut replaced,
    )
}

// S10, of the overrides of the class at a place, after those of these methods.
fn overrides_follow<'a>(
    alloc: Global,
    table: &IndexSet<&[u8]>,
    kernel: &'a [ClassFace],
    classes: &[Declared<'a>],
    lists: &[List<usize>],
    place: usize,
    class: &Declared<'a>,
    before: &mut Vec<Method<'a>>,
) -> Result<(), VerifyFault>
    requires table { IsTable (classes_of classes.now) (texts table.now.keys) }
    requires kernel { kernel.now ≡ kernel_interface.classes }
    requires lists { AreLists (with_kernel (classes_of classes.now)) lists.now }
    requires moved { first (flat_map (s9 (with_kernel (classes_of classes.now))) (classes_of classes.now)) ≡ None }
    requires place { place < length (with_kernel (classes_of classes.now)) }
    ensures tells { Tells (first (overrides_from (with_kernel (classes_of classes.now))
        (key_at (with_kernel (classes_of classes.now)) place) (class_of class.now) (map method_of before.old.items) class.now.decl.now.overrides)) result }
    ensures owners { OnOk result (map method_of before.new.items ≡
        map method_of before.old.items ++ overridden (with_kernel (classes_of classes.now)) class.now.decl.now.overrides) }
{
    let decl = class.decl;
    for item in decl.overrides.as_slice() {
        let method = owner_of(table, kernel, classes, &item.method);
        if !may_override(table, kernel, classes, lists, place, before, &method) {
            return Err(refusal(alloc, 10, decl, item.method.name.as_slice()));
        }
        before.push(method)?;
    }
    Ok(())
}

/// Whether the class at a place may override a method, after those before.
pub fn may_override(
    table: &IndexSet<&[u8]>,
    kernel: &[ClassFace],
    classes: &[Declared],
    lists: &[List<usize>],
    place: usize,
    before: &[Method],
    method: &Method,
) -> bool
    requires table { IsTable (classes_of classes.now) (texts table.now.keys) }
    requires kernel { kernel.now ≡ kernel_interface.classes }
    requires lists { AreLists (with_kernel (classes_of classes.now)) lists.now }
    requires place { place < length (with_kernel (classes_of classes.now)) }
    ensures { result ≡ allowed (with_kernel (classes_of classes.now)) (key_at (with_kernel (classes_of classes.now)) place)
        (map method_of before.now) (method_of method.now) }
{
    is_inherited(table, kernel, classes, lists, place, method) && !is_among(before, method)
}

fn is_among(methods: &[Method], method: &Method) -> bool
    ensures { result ≡ some (same_method (method_of method.now)) (map method_of methods.now) }
{
    for other in methods {
        if is_same(method, other) {
            return true;
        }
    }
    false
}

fn is_same(method: &Method, other: &Method) -> bool
    ensures { result ≡ same_method (method_of method.now) (method_of other.now) }
{
    method.class.is(other.class) && method.name.is(other.name.as_slice())
}
