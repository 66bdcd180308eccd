//! Whether the flat interface of levels breaks a rule of faces, and at which level.

ghost use Rattle.som_compat_levels.specs.Conditions.{AreLoadableLevels};
ghost use Rattle.som_compat_levels.specs.Standing.{classes_of};
ghost use Rattle.som_flat.specs.Breaches.{flat_breach};
ghost use Rattle.som_flat.specs.Told.{TellsFlat, TellsNamed};
ghost use Rattle.som_flat_laws.specs.Flat.{flat_interface};
ghost use Rattle.som_model.specs.Classes.{interface_classes};
ghost use Rattle.som_model.specs.Conforming.{faces_breach};
ghost use Rattle.std.specs.Prelude.{◌≡◌, IfOk, None};

use crate::breach::FlatFault;
use crate::introduced::are_introduced_once;
use crate::names::{level_named, names_differ};
use som_builtins::kernel_faces;
use som_compat_levels::{PlacedClass, all_classes};
use som_model::{Interface, List};
use som_verify_classes::VerifyFault;
use som_verify_parents::bare_classes;
use som_verify_rules::faces_ok;
use std::alloc::Global;

/// Whether the flat interface of levels breaks no rule of faces, and else the first that it breaks, with the number of the
/// level at which the class stands.
pub fn flat_rules(
    alloc: Global,
    levels: &List<Interface>,
    flat: &Interface,
) -> Result<(), FlatFault>
    requires levels { AreLoadableLevels levels.now }
    requires flat { flat.now ≡ flat_interface levels.now }
    ensures tells { TellsFlat (flat_breach levels.now) result }
    ensures kept { IfOk result (λ _. faces_breach (interface_classes flat.now) ≡ None) }
{
    let kernel = kernel_faces(alloc)?;
    let classes = all_classes(alloc, kernel.classes.as_slice(), levels.as_slice())?;
    names_differ(alloc, &classes)?;
    if are_introduced_once(alloc, &classes)? {
        return Ok(());
    }
    faces_hold(alloc, &classes, flat)
}

// The rules of the flat interface, with the level of a class of the name.
fn faces_hold(alloc: Global, classes: &[PlacedClass], flat: &Interface) -> Result<(), FlatFault>
    ensures { TellsNamed (classes_of classes.now) (faces_breach (interface_classes flat.now)) result }
{
    let bares = bare_classes(alloc, flat.classes.as_slice())?;
    match faces_ok(alloc, bares.as_slice()) {
        Ok(_) => Ok(()),
        Err(VerifyFault::Rule(broken)) => Err(FlatFault::Rule {
            level: level_named(classes, &broken.class),
            broken,
        }),
        Err(VerifyFault::NoMemory) => Err(FlatFault::NoMemory),
    }
}
