//! Checks that each entry that was moved up names an ancestor which introduces it (S9).

ghost use Rattle.som_model.specs.Kernel.{kernel_interface};
ghost use Rattle.som_model.specs.Lists.{first};
ghost use Rattle.som_model.specs.Rules.{s9};
ghost use Rattle.som_order.specs.Names.{texts};
ghost use Rattle.som_verify_classes.specs.Inherited.{moved_entry};
ghost use Rattle.som_verify_classes.specs.Modules.{class_of, classes_of};
ghost use Rattle.som_verify_classes.specs.Places.{IsTable, key_at, with_kernel};
ghost use Rattle.som_verify_classes.specs.Told.{Tells};
ghost use Rattle.som_verify_classes.specs.Walk.{AreLists};
ghost use Rattle.std.specs.Prelude.{◌≡◌, ◌<◌, drop, length, flat_map};

use crate::inherited::is_inherited;
use indexmap::IndexSet;
use som_model::{ClassFace, Entry, List};
use som_verify_classes::{Declared, KERNEL_CLASSES, Method, VerifyFault, refusal};
use std::alloc::Global;

/// S9: each moved entry names a proper ancestor that introduces its name. It is asked of the classes from a place on.
pub fn entries_moved_up(
    alloc: Global,
    table: &IndexSet<&[u8]>,
    kernel: &[ClassFace],
    classes: &[Declared],
    lists: &[List<usize>],
    from: usize,
) -> Result<(), VerifyFault>
    requires table { IsTable (classes_of classes.now) (texts table.now.keys) }
    requires kernel { kernel.now ≡ kernel_interface.classes }
    requires lists { AreLists (with_kernel (classes_of classes.now)) lists.now }
    ensures { Tells (first (flat_map (s9 (with_kernel (classes_of classes.now))) (classes_of (drop from classes.now)))) result }
{
    for place in from..classes.len() {
        let class = &classes[place];
        let place = place + KERNEL_CLASSES;
        own_entries_moved_up(alloc, table, kernel, classes, lists, place, class)?;
    }
    Ok(())
}

fn own_entries_moved_up(
    alloc: Global,
    table: &IndexSet<&[u8]>,
    kernel: &[ClassFace],
    classes: &[Declared],
    lists: &[List<usize>],
    place: usize,
    class: &Declared,
) -> Result<(), VerifyFault>
    requires table { IsTable (classes_of classes.now) (texts table.now.keys) }
    requires kernel { kernel.now ≡ kernel_interface.classes }
    requires lists { AreLists (with_kernel (classes_of classes.now)) lists.now }
    requires place { place < length (with_kernel (classes_of classes.now)) }
    ensures { Tells (first (flat_map (moved_entry (with_kernel (classes_of classes.now))
        (key_at (with_kernel (classes_of classes.now)) place) (class_of class.now)) class.now.decl.now.face.entries)) result }
{
    let decl = class.decl;
    for entry in decl.face.entries.as_slice() {
        if let Entry::Moved { name, to } = entry {
            if !is_inherited(
                table,
                kernel,
                classes,
                lists,
                place,
                &Method { class: to, name },
            ) {
                return Err(refusal(alloc, 9, decl, name.as_slice()));
            }
        }
    }
    Ok(())
}
