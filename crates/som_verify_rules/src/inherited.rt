//! Answers whether a class inherits a method: one that a proper ancestor introduces.

ghost use Rattle.som_model.specs.Class.{entry_of, introduced_sig};
ghost use Rattle.som_model.specs.Kernel.{kernel_interface};
ghost use Rattle.som_model.specs.Lists.{some};
ghost use Rattle.som_order.specs.Names.{texts};
ghost use Rattle.som_verify_classes.specs.Inherited.{inherits, moved_to as moved};
ghost use Rattle.som_verify_classes.specs.Modules.{classes_of};
ghost use Rattle.som_verify_classes.specs.Places.{IsTable, key_at, with_kernel};
ghost use Rattle.som_verify_classes.specs.Walk.{AreLists};
ghost use Rattle.std.specs.Prelude.{◌≡◌, ◌==◌, ◌&&◌, ◌<◌, not, length, is_some, option_copied, slice_index_or, []};

use indexmap::IndexSet;
use som_model::{ClassFace, ClassKey, Entry, List, Sig, Text};
use som_verify_classes::{
    Declared, KERNEL_CLASSES, Method, entries_at, find_class, find_entry, has_place, item,
};

/// Whether the class at a place has a proper ancestor that introduces the method.
pub fn is_inherited(
    table: &IndexSet<&[u8]>,
    kernel: &[ClassFace],
    classes: &[Declared],
    lists: &[List<usize>],
    place: usize,
    method: &Method,
) -> bool
    requires table { IsTable (classes_of classes.now) (texts table.now.keys) }
    requires kernel { kernel.now ≡ kernel_interface.classes }
    requires lists { AreLists (with_kernel (classes_of classes.now)) lists.now }
    requires place { place < length (with_kernel (classes_of classes.now)) }
    ensures { result ≡ inherits (with_kernel (classes_of classes.now)) (key_at (with_kernel (classes_of classes.now)) place)
        method.now.class.now method.now.name.now }
{
    match find_class(table, classes, method.class, classes.len() + KERNEL_CLASSES) {
        None => false,
        Some(ancestor) => {
            stands_above(lists, place, ancestor)
                && introduces(entries_at(kernel, classes, ancestor), method.name)
        }
    }
}

// Whether a place is another than that of the class, and on the list of its ancestors.
fn stands_above(lists: &[List<usize>], place: usize, ancestor: usize) -> bool
    requires { place < length lists.now }
    ensures { result ≡ (not (ancestor == place) && some (λ a. ancestor == a) (slice_index_or lists.now place [])) }
{
    ancestor != place && has_place(item(lists, place), ancestor)
}

fn introduces(entries: &[Entry], name: &Text) -> bool
    ensures { result ≡ is_some (introduced_sig (entry_of entries.now name.now)) }
{
    match find_entry(entries, name) {
        Some(Entry::Introduced { .. }) => true,
        _ => false,
    }
}
