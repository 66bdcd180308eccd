//! Makes the one interface of levels of libraries.

ghost use Rattle.som_compat_levels.specs.Conditions.{AreLoadableLevels};
ghost use Rattle.som_compat_levels.specs.Owners.{AreOwners};
ghost use Rattle.som_compat_levels.specs.Standing.{AreStanding, classes_of};
ghost use Rattle.som_flat.specs.FlatFaces.{flat_face_of};
ghost use Rattle.som_flat_laws.specs.Flat.{flat_interface as flat_of};
ghost use Rattle.std.specs.Prelude.{◌≡◌, IfOk, drop, length, map};

use crate::faces::flat_face;
use som_builtins::kernel_faces;
use som_compat_levels::{PlacedClass, Slot, all_classes, entry_owners, sorted_places};
use som_model::{ClassFace, Interface, List, NoMemory};
use som_verify_classes::KERNEL_CLASSES;
use std::alloc::Global;

/// The classes of all levels in order as those of one library, where each moved entry names the class of its owner. It
/// takes time by the classes, their parents and their entries.
pub fn flat_interface(alloc: Global, levels: &List<Interface>) -> Result<Interface, NoMemory>
    requires { AreLoadableLevels levels.now }
    ensures { IfOk result (λ flat. flat ≡ flat_of levels.now) }
{
    let kernel = kernel_faces(alloc)?;
    let classes = all_classes(alloc, kernel.classes.as_slice(), levels.as_slice())?;
    let faces = flat_faces(alloc, &classes)?;
    Ok(Interface { classes: faces })
}

// The faces of all classes after the kernel's.
fn flat_faces(alloc: Global, classes: &[PlacedClass]) -> Result<List<ClassFace>, NoMemory>
    requires { AreStanding (classes_of classes.now) }
    ensures { IfOk result (λ faces. faces ≡ map (flat_face_of (classes_of classes.now)) (drop 4 (classes_of classes.now))) }
{
    let places = sorted_places(alloc, classes)?;
    let owners = entry_owners(alloc, classes, &places)?;
    faces_by_owners(alloc, classes, &owners)
}

fn faces_by_owners(
    alloc: Global,
    classes: &[PlacedClass],
    owners: &[List<Slot>],
) -> Result<List<ClassFace>, NoMemory>
    requires { AreOwners (classes_of classes.now) (length (classes_of classes.now)) owners.now }
    ensures { IfOk result (λ faces. faces ≡ map (flat_face_of (classes_of classes.now)) (drop 4 (classes_of classes.now))) }
{
    let mut faces = List::new(alloc);
    for place in KERNEL_CLASSES..classes.len() {
        faces.push(flat_face(alloc, classes, owners, place)?)?;
    }
    Ok(faces)
}
