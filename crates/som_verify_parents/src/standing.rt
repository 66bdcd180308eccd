//! Declares the classes of a module, and checks their parents on the way to the lists of ancestors.

ghost use Rattle.som_model.specs.Class.{class_in};
ghost use Rattle.som_model.specs.Lists.{first};
ghost use Rattle.som_model.specs.Rules.{s3};
ghost use Rattle.som_order.specs.Names.{texts};
ghost use Rattle.som_verify_classes.specs.Faces.{standing_breach};
ghost use Rattle.som_verify_classes.specs.Modules.{classes_of};
ghost use Rattle.som_verify_classes.specs.Places.{IsTable, with_kernel};
ghost use Rattle.som_verify_classes.specs.Told.{Tells};
ghost use Rattle.som_model_laws.specs.Rows.{AreAncestors, AreLow};
ghost use Rattle.som_verify_classes.specs.Walk.{AreLists};
ghost use Rattle.std.specs.Prelude.{◌≡◌, ◌++◌, length, flat_map, map, IfOk};

use crate::ancestry::ancestors;
use crate::parents::{parents_differ, parents_stand};
use indexmap::IndexSet;
use som_model::{ClassDecl, List, Module, NoMemory};
use som_verify_classes::{Declared, VerifyFault};
use std::alloc::Global;

/// Adds classes of a module to those that were declared.
pub fn declare<'a>(
    declared: Vec<Declared<'a>>,
    home: Module,
    classes: &'a [ClassDecl],
) -> Result<Vec<Declared<'a>>, NoMemory>
    ensures { IfOk result (λ all. classes_of all.items ≡ classes_of declared.entry.items ++ map (class_in home) classes.now) }
{
    let mut all = declared;
    for decl in classes {
        all.push(Declared { module: home, decl })?;
    }
    Ok(all)
}

/// The ancestors of each class by places, where parents stand before their classes and none stands twice.
pub fn standing_ancestors(
    alloc: Global,
    table: &IndexSet<&[u8]>,
    classes: &[Declared],
) -> Result<Vec<List<usize>>, VerifyFault>
    requires { IsTable (classes_of classes.now) (texts table.now.keys) }
    ensures tells { Tells (standing_breach (classes_of classes.now)) result }
    ensures lists { IfOk result (λ lists. AreLists (with_kernel (classes_of classes.now)) lists.items) }
{
    let rows = parents_stand(alloc, table, classes)?;
    distinct_ancestors(alloc, classes, &rows)
}

// The ancestors of each class by the places of the parents, where no parent stands twice.
fn distinct_ancestors(
    alloc: Global,
    classes: &[Declared],
    rows: &[List<usize>],
) -> Result<Vec<List<usize>>, VerifyFault>
    requires { AreLow rows.now }
    ensures tells { Tells (first (flat_map s3 (classes_of classes.now))) result }
    ensures lists { IfOk result (λ lists. AreAncestors rows.now (length rows.now) lists.items) }
{
    parents_differ(alloc, classes)?;
    Ok(ancestors(alloc, rows)?)
}
