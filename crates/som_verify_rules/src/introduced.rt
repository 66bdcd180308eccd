//! Checks that no two ancestors of a class introduce one name (S8).

ghost use Rattle.som_model.specs.Class.{introduced};
ghost use Rattle.som_model.specs.Kernel.{kernel_interface};
ghost use Rattle.som_model.specs.Lists.{Mem, first};
ghost use Rattle.som_model.specs.Rules.{s8};
ghost use Rattle.som_order.specs.Names.{texts};
ghost use Rattle.som_verify_classes.specs.Along.{doubles_breach, s8_at};
ghost use Rattle.som_verify_classes.specs.Modules.{class_of, classes_of};
ghost use Rattle.som_verify_classes.specs.Places.{face_at, with_kernel};
ghost use Rattle.som_verify_rules.specs.Shared.{AreSharedRows, row_names};
ghost use Rattle.som_verify_classes.specs.Told.{Tells};
ghost use Rattle.som_verify_classes.specs.Walk.{AreLists};
ghost use Rattle.som_verify_classes.specs.declared.types.Declared.{Declared as Known};
ghost use Rattle.std.specs.Prelude.{◌≡◌, ◌<◌, ◌+◌, ◌++◌, ℕ, [], drop, length, flat_map, slice_get, slice_index_or, IsTrue, OnOk, Some};

use crate::members::each_once;
use crate::shared::{add_rows, shared_rows};
use som_model::{ClassFace, Entry, List, NoMemory};
use som_verify_classes::{Declared, KERNEL_CLASSES, VerifyFault, item};
use som_verify_parents::add;
use std::alloc::Global;

/// S8: each name is introduced by at most one class among the ancestors of a class. It is asked of the classes from
/// a place on. Names that no two entries of all classes introduce are left out at once.
pub fn names_introduced_once(
    alloc: Global,
    kernel: &[ClassFace],
    classes: &[Declared],
    lists: &[List<usize>],
    from: usize,
) -> Result<(), VerifyFault>
    requires kernel { kernel.now ≡ kernel_interface.classes }
    requires lists { AreLists (with_kernel (classes_of classes.now)) lists.now }
    ensures { Tells (first (flat_map (s8 (with_kernel (classes_of classes.now))) (classes_of (drop from classes.now)))) result }
{
    let rows = shared_rows(alloc, kernel, classes)?;
    once_from(alloc, classes, lists, &rows, from)
}

fn once_from(
    alloc: Global,
    classes: &[Declared],
    lists: &[List<usize>],
    rows: &[List<&[u8]>],
    from: usize,
) -> Result<(), VerifyFault>
    requires lists { AreLists (with_kernel (classes_of classes.now)) lists.now }
    requires rows { AreSharedRows (with_kernel (classes_of classes.now)) rows.now }
    ensures { Tells (first (flat_map (s8 (with_kernel (classes_of classes.now))) (classes_of (drop from classes.now)))) result }
{
    let none_shared = are_empty(rows);
    for place in from..classes.len() {
        introduced_once_in(alloc, classes, lists, rows, none_shared, place)?;
    }
    Ok(())
}

// Whether no row has a name.
fn are_empty(rows: &[List<&[u8]>]) -> bool
    ensures { IsTrue result → (p : ℕ) → row_names rows.now p ≡ [] }
{
    for row in rows {
        if !row.is_empty() {
            return false;
        }
    }
    true
}

fn introduced_once_in(
    alloc: Global,
    classes: &[Declared],
    lists: &[List<usize>],
    rows: &[List<&[u8]>],
    none_shared: bool,
    place: usize,
) -> Result<(), VerifyFault>
    requires place { place < length classes.now }
    requires lists { AreLists (with_kernel (classes_of classes.now)) lists.now }
    requires rows { AreSharedRows (with_kernel (classes_of classes.now)) rows.now }
    requires empty { IsTrue none_shared → (p : ℕ) → row_names rows.now p ≡ [] }
    ensures { (class : Known) → slice_get classes.now place ≡ Some class →
        Tells (first (s8_at (with_kernel (classes_of classes.now))
        (slice_index_or lists.now (place + 4) []) (class_of class))) result }
{
    let list = item(lists, place + KERNEL_CLASSES);
    introduced_once_along(alloc, rows, none_shared, list, &classes[place])
}

fn introduced_once_along<'a>(
    alloc: Global,
    rows: &[List<&'a [u8]>],
    none_shared: bool,
    list: &[usize],
    class: &Declared,
) -> Result<(), VerifyFault>
    requires list { (a : ℕ) → Mem a list.now → a < length rows.now }
    requires empty { IsTrue none_shared → (p : ℕ) → row_names rows.now p ≡ [] }
    ensures { Tells (first (doubles_breach 8 (class_of class.now) (flat_map (row_names rows.now) list.now))) result }
{
    if none_shared {
        return Ok(());
    }
    let mut names = Vec::new(alloc);
    add_rows(&mut names, rows, list)?;
    each_once(alloc, 8, class, &names)
}

/// Adds the names that these entries introduce.
pub fn add_introduced<'a>(names: &mut Vec<&'a [u8]>, entries: &'a [Entry]) -> Result<(), NoMemory>
    ensures { OnOk result (texts names.new.items ≡ texts names.old.items ++ introduced entries.now) }
{
    for entry in entries {
        if let Entry::Introduced { name, .. } = entry {
            add(names, name.as_slice())?;
        }
    }
    Ok(())
}
