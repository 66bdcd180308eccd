//! The table of class names with the ancestors of each class.

ghost use Rattle.som_model.specs.Conforming.{each_after};
ghost use Rattle.som_model.specs.Kernel.{kernel};
ghost use Rattle.som_model.specs.Lists.{first};
ghost use Rattle.som_model.specs.Rules.{s2};
ghost use Rattle.som_order.specs.Names.{texts};
ghost use Rattle.som_verify_classes.specs.Modules.{classes_of};
ghost use Rattle.som_verify_classes.specs.Places.{IsTable};
ghost use Rattle.som_verify_classes.specs.declared.types.VerifyFault.TheVariants as faults;
ghost use Rattle.som_sema.specs.Ancestry.{AreAncestorLists};
ghost use Rattle.std.specs.Prelude.{◌≡◌, IfErr, IfOk, None};

use indexmap::IndexSet;
use som_model::{List, NoMemory};
use som_verify_classes::{Declared, VerifyFault};
use som_verify_parents::{ancestors, parents_stand};
use std::alloc::Global;

/// The names of classes by their places, and the ancestors of each.
#[derive(Drop)]
pub struct AncestorTable<'a> {
    pub table: IndexSet<&'a [u8]>,
    pub lists: Vec<List<usize>>,
}

/// The ancestors of the kernel's classes and of these, where parents and metaclasses stand before their classes.
pub fn ancestor_lists(
    alloc: Global,
    table: &IndexSet<&[u8]>,
    classes: &[Declared],
) -> Result<Vec<List<usize>>, NoMemory>
    requires table { IsTable (classes_of classes.now) (texts table.now.keys) }
    requires stand { first (each_after s2 kernel (classes_of classes.now)) ≡ None }
    ensures { IfOk result (λ lists. AreAncestorLists (classes_of classes.now) lists.items) }
{
    match list_ancestors(alloc, table, classes) {
        Ok(lists) => Ok(lists),
        Err(VerifyFault::NoMemory) => Err(NoMemory),
        Err(VerifyFault::Rule(_)) => unreachable!(),
    }
}

// The ancestors of classes of which none breaks S2, by the pass that would tell such a breach.
fn list_ancestors(
    alloc: Global,
    table: &IndexSet<&[u8]>,
    classes: &[Declared],
) -> Result<Vec<List<usize>>, VerifyFault>
    requires table { IsTable (classes_of classes.now) (texts table.now.keys) }
    requires stand { first (each_after s2 kernel (classes_of classes.now)) ≡ None }
    ensures lists { IfOk result (λ lists. AreAncestorLists (classes_of classes.now) lists.items) }
    ensures fault { IfErr result (λ e. e ≡ faults.NoMemory) }
{
    let rows = parents_stand(alloc, table, classes)?;
    Ok(ancestors(alloc, &rows)?)
}
