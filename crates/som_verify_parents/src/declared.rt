//! Answers the ancestors of declared classes where names and parents are known to break no rule.

ghost use Rattle.som_model.specs.Conforming.{first_of_names};
ghost use Rattle.som_model.specs.Kernel.{kernel};
ghost use Rattle.som_verify_classes.specs.Modules.{classes_of};
ghost use Rattle.som_verify_classes.specs.Places.{with_kernel};
ghost use Rattle.som_verify_classes.specs.Walk.{AreLists};
ghost use Rattle.som_verify_classes.specs.declared.types.VerifyFault.TheVariants as faults;
ghost use Rattle.std.specs.Prelude.{◌≡◌, IfErr, IfOk, None};

use crate::standing::standing_ancestors;
use som_model::{List, NoMemory};
use som_verify_classes::{Declared, VerifyFault, class_names};
use std::alloc::Global;

/// The ancestors of the kernel's classes and of these, by places, where names and parents break no rule.
pub fn declared_ancestors(alloc: Global, classes: &[Declared]) -> Result<Vec<List<usize>>, NoMemory>
    requires { first_of_names kernel (classes_of classes.now) ≡ None }
    ensures { IfOk result (λ lists. AreLists (with_kernel (classes_of classes.now)) lists.items) }
{
    match walk(alloc, classes) {
        Ok(lists) => Ok(lists),
        Err(VerifyFault::NoMemory) => Err(NoMemory),
        Err(VerifyFault::Rule(_)) => unreachable!(),
    }
}

// The lists of ancestors by passes that would tell a breach, of which there is none.
fn walk(alloc: Global, classes: &[Declared]) -> Result<Vec<List<usize>>, VerifyFault>
    requires { first_of_names kernel (classes_of classes.now) ≡ None }
    ensures lists { IfOk result (λ lists. AreLists (with_kernel (classes_of classes.now)) lists.items) }
    ensures fault { IfErr result (λ e. e ≡ faults.NoMemory) }
{
    let table = class_names(alloc, classes)?;
    standing_ancestors(alloc, &table, classes)
}
