//! The index from the name of a method to the classes that introduce it.

ghost use Rattle.som_sema_names.specs.Introducers.{AreIntroducers, AreSeen, At, at_first, at_one};
ghost use Rattle.som_model.specs.Class.{introduced};
ghost use Rattle.som_model.specs.Kernel.{kernel_interface};
ghost use Rattle.som_order.specs.Names.{texts};
ghost use Rattle.som_verify_classes.specs.Modules.{classes_of};
ghost use Rattle.som_verify_classes.specs.Places.{with_kernel};
ghost use Rattle.std.specs.Prelude.{◌≡◌, ◌<◌, ◌++◌, ◌∷◌, [], List as Seq, length, slice_index_or, slice_set, IfOk, OnOk};

use indexmap::IndexSet;
use som_model::{ClassFace, Entry, List, NoMemory};
use som_order::{find_name, note_name};
use som_verify_classes::{Declared, KERNEL_CLASSES, entries_at};
use std::alloc::Global;

/// Each name that a class introduces, with the places of the classes that introduce it.
#[derive(Drop)]
pub struct Introducers<'a> {
    pub names: IndexSet<&'a [u8]>,
    pub places: Vec<List<usize>>,
}

/// The classes that introduce each name, of the kernel's classes and of these. Each entry is looked at once.
pub fn introducers_of<'a>(
    alloc: Global,
    kernel: &'a [ClassFace],
    classes: &[Declared<'a>],
) -> Result<Introducers<'a>, NoMemory>
    requires { kernel.now ≡ kernel_interface.classes }
    ensures { IfOk result (AreIntroducers (with_kernel (classes_of classes.now))) }
{
    let mut names = IndexSet::new(alloc);
    let mut places = Vec::new(alloc);
    for place in 0..classes.len() + KERNEL_CLASSES {
        let entries = entries_at(kernel, classes, place);
        add_introduced(alloc, &mut names, &mut places, entries, place)?;
    }
    Ok(Introducers { names, places })
}

fn add_introduced<'a>(
    alloc: Global,
    names: &mut IndexSet<&'a [u8]>,
    places: &mut Vec<List<usize>>,
    entries: &'a [Entry],
    place: usize,
) -> Result<(), NoMemory>
    requires { length places.old.items ≡ length (texts names.old.keys) }
    ensures long { OnOk result (length places.new.items ≡ length (texts names.new.keys)) }
    ensures seen { (seen : Seq At) → AreSeen seen (texts names.old.keys) places.old.items
        → OnOk result (AreSeen (seen ++ at_one place (introduced entries.now)) (texts names.new.keys) places.new.items) }
{
    for entry in entries {
        if let Entry::Introduced { name, .. } = entry {
            add(alloc, names, places, name.as_slice(), place)?;
        }
    }
    Ok(())
}

// One more name with a place.
fn add<'a>(
    alloc: Global,
    names: &mut IndexSet<&'a [u8]>,
    places: &mut Vec<List<usize>>,
    name: &'a [u8],
    place: usize,
) -> Result<(), NoMemory>
    requires { length places.old.items ≡ length (texts names.old.keys) }
    ensures long { OnOk result (length places.new.items ≡ length (texts names.new.keys)) }
    ensures seen { (seen : Seq At) → AreSeen seen (texts names.old.keys) places.old.items
        → OnOk result (AreSeen (seen ++ record { name = name.now; place = place } ∷ []) (texts names.new.keys) places.new.items) }
{
    match find_name(names, name) {
        Some(index) => add_place(places, index, place),
        None => {
            let _is_new = note_name(names, name)?;
            add_list(alloc, places, place)
        }
    }
}

fn add_place(places: &mut Vec<List<usize>>, index: usize, place: usize) -> Result<(), NoMemory>
    requires { index < length places.old.items }
    ensures { OnOk result (places.new.items ≡ slice_set places.old.items index (slice_index_or places.old.items index [] ++ place ∷ [])) }
{
    places[index].push(place)?;
    Ok(())
}

fn add_list(alloc: Global, places: &mut Vec<List<usize>>, place: usize) -> Result<(), NoMemory>
    ensures { OnOk result (places.new.items ≡ places.old.items ++ (place ∷ []) ∷ []) }
{
    let mut list = List::new(alloc);
    list.push(place)?;
    places.push(list)?;
    Ok(())
}
