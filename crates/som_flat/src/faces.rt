//! The face of a class of a level as the flat interface has it.

ghost use Rattle.som_compat_levels.specs.Owners.{AreOwners};
ghost use Rattle.som_compat_levels.specs.Standing.{classes_of};
ghost use Rattle.som_flat.specs.FlatFaces.{flat_face_of};
ghost use Rattle.som_verify_classes.specs.Places.{class_of_place, face_at};
ghost use Rattle.std.specs.Prelude.{◌≡◌, ◌<◌, IfOk, length};

use crate::entries::flat_entries;
use crate::modules::FlatModules;
use som_compat_levels::{PlacedClass, Slot};
use som_model::{ClassFace, List, NoMemory};
use som_rekey::{rekey_keys, rekey_metaclass};
use std::alloc::Global;

/// The face of the class at a place.
pub fn flat_face(
    alloc: Global,
    classes: &[PlacedClass],
    owners: &[List<Slot>],
    place: usize,
) -> Result<ClassFace, NoMemory>
    requires owners { AreOwners (classes_of classes.now) (length (classes_of classes.now)) owners.now }
    requires place { place < length classes.now }
    ensures { IfOk result (λ f. f ≡ flat_face_of (classes_of classes.now) (class_of_place (classes_of classes.now) place)) }
{
    let face = level_face(classes, place);
    let entries = flat_entries(alloc, classes, owners, place)?;
    Ok(ClassFace {
        name: face.name.copy(alloc)?,
        major: face.major,
        minor: face.minor,
        parents: rekey_keys(alloc, &FlatModules, &face.parents)?,
        metaclass: rekey_metaclass(alloc, &FlatModules, &face.metaclass)?,
        entries,
    })
}

// The face of the class at a place as its level has it.
fn level_face<'a>(classes: &[PlacedClass<'a>], place: usize) -> &'a ClassFace
    requires { place < length classes.now }
    ensures { result.now ≡ face_at (classes_of classes.now) place }
{
    classes[place].face
}
