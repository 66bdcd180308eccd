//! Checks the rules on faces of declared classes in order (S1 to S10), and answers the first breach.

ghost use Rattle.som_model.specs.Conforming.{each_after, first_of_members};
ghost use Rattle.som_model.specs.Kernel.{kernel as kernels, kernel_interface};
ghost use Rattle.som_model.specs.Lists.{first, or_else};
ghost use Rattle.som_model.specs.Rules.{s2};
ghost use Rattle.som_order.specs.Names.{texts};
ghost use Rattle.som_verify_classes.specs.Faces.{classes_breach, methods_breach, placed_breach, standing_breach, types_breach};
ghost use Rattle.som_verify_classes.specs.Modules.{classes_of};
ghost use Rattle.som_verify_classes.specs.Places.{IsTable, with_kernel};
ghost use Rattle.som_verify_classes.specs.Told.{Tells};
ghost use Rattle.som_verify_classes.specs.Walk.{AreLists};
ghost use Rattle.std.specs.Prelude.{◌≡◌, ◌≤◌, length, IfOk, None};

use crate::introduced::names_introduced_once;
use crate::members::{entries_differ, variables_differ};
use crate::metaclasses::metaclasses_descend;
use crate::moved::entries_moved_up;
use crate::overrides::overrides_inherited;
use crate::signatures::types_known;
use indexmap::IndexSet;
use som_builtins::kernel_faces;
use som_model::{ClassFace, List};
use som_verify_classes::{Declared, KERNEL_CLASSES, VerifyFault, class_names};
use som_verify_parents::standing_ancestors;
use std::alloc::Global;

/// The rules S1 to S10, which look at no body, where the types of the first `base` classes name no class after them. Where
/// none is broken, it answers the ancestors of the kernel's classes and of these, by places.
pub fn classes_hold(
    alloc: Global,
    classes: &[Declared],
    base: usize,
) -> Result<Vec<List<usize>>, VerifyFault>
    requires { base ≤ length classes.now }
    ensures tells { Tells (classes_breach base (classes_of classes.now)) result }
    ensures lists { IfOk result (λ lists. AreLists (with_kernel (classes_of classes.now)) lists.items) }
{
    let table = class_names(alloc, classes)?;
    named_hold(alloc, &table, classes, base)
}

// The rules S2 to S10, for classes whose names differ.
fn named_hold(
    alloc: Global,
    table: &IndexSet<&[u8]>,
    classes: &[Declared],
    base: usize,
) -> Result<Vec<List<usize>>, VerifyFault>
    requires table { IsTable (classes_of classes.now) (texts table.now.keys) }
    requires base { base ≤ length classes.now }
    ensures tells { Tells (or_else (standing_breach (classes_of classes.now)) (placed_breach base (classes_of classes.now))) result }
    ensures lists { IfOk result (λ lists. AreLists (with_kernel (classes_of classes.now)) lists.items) }
{
    let lists = standing_ancestors(alloc, table, classes)?;
    placed_hold(alloc, table, classes, lists.as_slice(), base)?;
    Ok(lists)
}

// The rules S4 to S10, for classes whose ancestors are known.
fn placed_hold(
    alloc: Global,
    table: &IndexSet<&[u8]>,
    classes: &[Declared],
    lists: &[List<usize>],
    base: usize,
) -> Result<(), VerifyFault>
    requires table { IsTable (classes_of classes.now) (texts table.now.keys) }
    requires lists { AreLists (with_kernel (classes_of classes.now)) lists.now }
    requires stand { first (each_after s2 kernels (classes_of classes.now)) ≡ None }
    requires base { base ≤ length classes.now }
    ensures { Tells (placed_breach base (classes_of classes.now)) result }
{
    metaclasses_descend(alloc, table, classes, lists, 0)?;
    all_types_known(alloc, table, classes, base)?;
    members_hold(alloc, table, classes, lists)
}

// The rules S6 to S10.
fn members_hold(
    alloc: Global,
    table: &IndexSet<&[u8]>,
    classes: &[Declared],
    lists: &[List<usize>],
) -> Result<(), VerifyFault>
    requires table { IsTable (classes_of classes.now) (texts table.now.keys) }
    requires lists { AreLists (with_kernel (classes_of classes.now)) lists.now }
    requires stand { first (each_after s2 kernels (classes_of classes.now)) ≡ None }
    ensures { Tells (first_of_members kernels (classes_of classes.now)) result }
{
    entries_differ(alloc, classes)?;
    variables_differ(alloc, classes)?;
    let kernel = kernel_faces(alloc)?;
    methods_hold(alloc, table, kernel.classes.as_slice(), classes, lists)
}

// The rules S8 to S10, which look at the entries of ancestors.
fn methods_hold(
    alloc: Global,
    table: &IndexSet<&[u8]>,
    kernel: &[ClassFace],
    classes: &[Declared],
    lists: &[List<usize>],
) -> Result<(), VerifyFault>
    requires table { IsTable (classes_of classes.now) (texts table.now.keys) }
    requires kernel { kernel.now ≡ kernel_interface.classes }
    requires lists { AreLists (with_kernel (classes_of classes.now)) lists.now }
    requires stand { first (each_after s2 kernels (classes_of classes.now)) ≡ None }
    ensures { Tells (methods_breach (classes_of classes.now)) result }
{
    names_introduced_once(alloc, kernel, classes, lists, 0)?;
    entries_moved_up(alloc, table, kernel, classes, lists, 0)?;
    overrides_inherited(alloc, table, kernel, classes, lists, 0)
}

// The types of the first classes name no class after them; those of the others name any.
fn all_types_known(
    alloc: Global,
    table: &IndexSet<&[u8]>,
    classes: &[Declared],
    base: usize,
) -> Result<(), VerifyFault>
    requires table { IsTable (classes_of classes.now) (texts table.now.keys) }
    requires base { base ≤ length classes.now }
    ensures { Tells (types_breach base (classes_of classes.now)) result }
{
    let number = base + KERNEL_CLASSES;
    types_known(alloc, table, classes, number, &classes[..base])?;
    let number = classes.len() + KERNEL_CLASSES;
    types_known(alloc, table, classes, number, &classes[base..])
}
