//! Where the owner of each entry stands, followed along moves, each entry once.

ghost use Rattle.som_compat_levels.specs.Owners.{AreOwners, HasOwners, IsOwner, IsTarget};
ghost use Rattle.som_compat_levels.specs.Standing.{AreStanding, classes_of};
ghost use Rattle.som_model.specs.declared.class.Entry.TheVariants as entries;
ghost use Rattle.som_verify_classes.specs.Places.{face_at};
ghost use Rattle.som_compat_levels.specs.declared.owners.Slot.{Slot as Slotted};
ghost use Rattle.std.specs.Prelude.{◌≡◌, ◌<◌, [], IfOk, Some, length, slice_get, slice_index_or};

use crate::classes::PlacedClass;
use crate::entries::{known_entry, sorted_entries};
use crate::finding::known_place;
use som_model::{ClassKey, Entry, List, NoMemory, Text};
use std::alloc::Global;

/// A class by its place, and one of its entries by its number.
#[derive(Clone, Copy)]
pub struct Slot {
    pub class: usize,
    pub entry: usize,
}

/// Classes with their places in the order of their keys, and with the numbers of the entries of each in the
/// order of their names.
#[derive(Clone, Copy)]
struct SortedClasses<'a> {
    classes: &'a [PlacedClass<'a>],
    places: &'a [usize],
    entries: &'a [List<usize>],
}

/// The owners of the entries of each class.
pub fn entry_owners(
    alloc: Global,
    classes: &[PlacedClass],
    places: &[usize],
) -> Result<Vec<List<Slot>>, NoMemory>
    requires { AreStanding (classes_of classes.now) }
    ensures { IfOk result (λ all. AreOwners (classes_of classes.now) (length (classes_of classes.now)) all.items) }
{
    let orders = entry_orders(alloc, classes)?;
    let sorted = SortedClasses {
        classes,
        places,
        entries: &orders,
    };
    all_owners(alloc, &sorted)
}

fn entry_orders(alloc: Global, classes: &[PlacedClass]) -> Result<Vec<List<usize>>, NoMemory>
    ensures { IfOk result (λ all. length all.items ≡ length classes.now) }
{
    let mut all = Vec::new(alloc);
    for class in classes {
        all.push(sorted_entries(alloc, class.face.entries.as_slice())?)?;
    }
    Ok(all)
}

fn all_owners(alloc: Global, sorted: &SortedClasses) -> Result<Vec<List<Slot>>, NoMemory>
    requires stand { AreStanding (classes_of sorted.now.classes.now) }
    requires entries { length sorted.now.entries.now ≡ length sorted.now.classes.now }
    ensures { IfOk result (λ all. AreOwners (classes_of sorted.now.classes.now) (length (classes_of sorted.now.classes.now)) all.items) }
{
    let mut all = Vec::new(alloc);
    for place in 0..sorted.classes.len() {
        let slots = class_owners(alloc, sorted, &all, place)?;
        all.push(slots)?;
    }
    Ok(all)
}

// The owners of the entries of one class, where those of the classes before it are known.
fn class_owners(
    alloc: Global,
    sorted: &SortedClasses,
    known: &[List<Slot>],
    place: usize,
) -> Result<List<Slot>, NoMemory>
    requires stand { AreStanding (classes_of sorted.now.classes.now) }
    requires entries { length sorted.now.entries.now ≡ length sorted.now.classes.now }
    requires known { AreOwners (classes_of sorted.now.classes.now) place known.now }
    requires place { place < length sorted.now.classes.now }
    ensures { IfOk result (λ slots. HasOwners (classes_of sorted.now.classes.now) place slots) }
{
    let mut slots = List::new(alloc);
    for entry in entries_at(sorted.classes, place) {
        let number = slots.len();
        slots.push(owner_slot(sorted, known, place, number, entry))?;
    }
    Ok(slots)
}

/// The entries of the class at a place.
pub fn entries_at<'a>(classes: &[PlacedClass<'a>], place: usize) -> &'a [Entry]
    requires { place < length classes.now }
    ensures { result.now ≡ (face_at (classes_of classes.now) place).entries }
{
    let face = classes[place].face;
    face.entries.as_slice()
}

fn owner_slot(
    sorted: &SortedClasses,
    known: &[List<Slot>],
    place: usize,
    number: usize,
    entry: &Entry,
) -> Slot
    requires stand { AreStanding (classes_of sorted.now.classes.now) }
    requires entries { length sorted.now.entries.now ≡ length sorted.now.classes.now }
    requires known { AreOwners (classes_of sorted.now.classes.now) place known.now }
    requires place { place < length sorted.now.classes.now }
    requires entry { slice_get (face_at (classes_of sorted.now.classes.now) place).entries number ≡ Some entry.now }
    ensures { IsOwner (classes_of sorted.now.classes.now) place entry.now result }
{
    match entry {
        Entry::Introduced { .. } => Slot {
            class: place,
            entry: number,
        },
        Entry::Moved { name, to } => moved_slot(sorted, known, place, name, to),
    }
}

// Where the owner stands of an entry that was moved.
fn moved_slot(
    sorted: &SortedClasses,
    known: &[List<Slot>],
    place: usize,
    name: &Text,
    to: &ClassKey,
) -> Slot
    requires stand { AreStanding (classes_of sorted.now.classes.now) }
    requires entries { length sorted.now.entries.now ≡ length sorted.now.classes.now }
    requires known { AreOwners (classes_of sorted.now.classes.now) place known.now }
    requires place { place < length sorted.now.classes.now }
    requires target { IsTarget (classes_of sorted.now.classes.now) place name.now to.now }
    ensures { IsOwner (classes_of sorted.now.classes.now) place (entries.Moved name.now to.now) result }
{
    let class = known_place(sorted.classes, sorted.places, to);
    let entries = entries_at(sorted.classes, class);
    let number = known_entry(entries, sorted.entries[class].as_slice(), name);
    slot_at(known, class, number)
}

/// The slot of an entry of the class at a place.
pub fn slot_at(known: &[List<Slot>], class: usize, number: usize) -> Slot
    requires class { class < length known.now }
    requires number { number < length (slice_index_or known.now class []) }
    ensures { (d : Slotted) → result ≡ slice_index_or (slice_index_or known.now class []) number d }
{
    known[class].as_slice()[number]
}
