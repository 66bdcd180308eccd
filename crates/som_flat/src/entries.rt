//! The entries of a class of a level as the flat interface has them: moved ones name the classes of their owners.

ghost use Rattle.som_compat_levels.specs.Owners.{AreOwners, IsOwner};
ghost use Rattle.som_compat_levels.specs.Standing.{classes_of};
ghost use Rattle.som_flat.specs.FlatFaces.{flat_entry_of};
ghost use Rattle.som_verify_classes.specs.Places.{face_at, key_at};
ghost use Rattle.std.specs.Prelude.{◌≡◌, ◌<◌, ℕ, IfOk, length, map};

use crate::modules::{FlatModules, flat_key};
use som_compat_levels::{PlacedClass, Slot, entries_at, slot_at};
use som_model::{Entry, List, NoMemory};
use som_rekey::rekey_entry;
use std::alloc::Global;

/// The entries of the class at a place, in order.
pub fn flat_entries(
    alloc: Global,
    classes: &[PlacedClass],
    owners: &[List<Slot>],
    place: usize,
) -> Result<List<Entry>, NoMemory>
    requires owners { AreOwners (classes_of classes.now) (length (classes_of classes.now)) owners.now }
    requires place { place < length classes.now }
    ensures { IfOk result (λ copies. copies ≡
        map (flat_entry_of (classes_of classes.now) (key_at (classes_of classes.now) place)) (face_at (classes_of classes.now) place).entries) }
{
    let entries = entries_at(classes, place);
    let mut copies = List::new(alloc);
    for number in 0..entries.len() {
        let owner = slot_at(owners, place, number);
        copies.push(flat_entry(alloc, classes, owner, &entries[number])?)?;
    }
    Ok(copies)
}

// One entry, of which it is known where its owner stands.
fn flat_entry(
    alloc: Global,
    classes: &[PlacedClass],
    owner: Slot,
    entry: &Entry,
) -> Result<Entry, NoMemory>
    requires { owner.class < length classes.now }
    ensures { (place : ℕ) → IsOwner (classes_of classes.now) place entry.now owner →
        IfOk result (λ copy. copy ≡ flat_entry_of (classes_of classes.now) (key_at (classes_of classes.now) place) entry.now) }
{
    match entry {
        Entry::Introduced { .. } => rekey_entry(alloc, &FlatModules, entry),
        Entry::Moved { name, .. } => Ok(Entry::Moved {
            name: name.copy(alloc)?,
            to: flat_key(alloc, &classes[owner.class])?,
        }),
    }
}
