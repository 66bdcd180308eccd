//! Checks all rules that look into no block: those on faces, and that on bodies.

ghost use Rattle.som_verify_classes.specs.Faces.{rules_breach};
ghost use Rattle.som_verify_classes.specs.Modules.{classes_of};
ghost use Rattle.som_verify_classes.specs.Told.{Tells};
ghost use Rattle.som_verify_classes.specs.Places.{with_kernel};
ghost use Rattle.som_verify_classes.specs.Walk.{AreLists};
ghost use Rattle.std.specs.Prelude.{◌≤◌, length, IfOk};

use crate::bodies::bodies_fit;
use crate::classes::classes_hold;
use som_model::List;
use som_verify_classes::{Declared, VerifyFault};
use std::alloc::Global;

/// The rules that look into no block, where of the first `base` classes the faces alone are known: their types
/// name no class after them, and they have no bodies.
pub fn rules_hold(alloc: Global, classes: &[Declared], base: usize) -> Result<(), VerifyFault>
    requires { base ≤ length classes.now }
    ensures { Tells (rules_breach base (classes_of classes.now)) result }
{
    let _ancestors = ancestors_where_rules_hold(alloc, classes, base)?;
    Ok(())
}

/// As `rules_hold`, and where no rule is broken it answers the ancestors of the kernel's classes and of these, by places.
pub fn ancestors_where_rules_hold(
    alloc: Global,
    classes: &[Declared],
    base: usize,
) -> Result<Vec<List<usize>>, VerifyFault>
    requires { base ≤ length classes.now }
    ensures tells { Tells (rules_breach base (classes_of classes.now)) result }
    ensures lists { IfOk result (λ lists. AreLists (with_kernel (classes_of classes.now)) lists.items) }
{
    let lists = classes_hold(alloc, classes, base)?;
    bodies_fit(alloc, &classes[base..])?;
    Ok(lists)
}
