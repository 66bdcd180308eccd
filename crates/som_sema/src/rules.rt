//! S1 to S9 of a module's classes above a base that conforms.

ghost use Rattle.som_model.specs.Class.{class_in};
ghost use Rattle.som_model.specs.Conforming.{each_after};
ghost use Rattle.som_model.specs.Kernel.{kernel, kernel_interface};
ghost use Rattle.som_model.specs.Lists.{first};
ghost use Rattle.som_model.specs.Rules.{s1, s2, s3, s5, s7};
ghost use Rattle.som_order.specs.Names.{texts};
ghost use Rattle.som_verify_classes.specs.Faces.{faces_breach};
ghost use Rattle.som_verify_classes.specs.Modules.{classes_of};
ghost use Rattle.som_verify_classes.specs.Places.{IsTable, with_kernel};
ghost use Rattle.som_verify_classes.specs.Told.{Tells};
ghost use Rattle.som_sema_scope.specs.ClassNames.{module_in_scope};
ghost use Rattle.som_verify_classes.specs.Walk.{AreLists};
ghost use Rattle.som_sema.specs.Ancestry.{AreAncestorLists, AreDrafts, IsAncestorTable};
ghost use Rattle.som_sema.specs.Building.{draft_breach, members_breach, moved_breach, named_breach};
ghost use Rattle.som_sema_drafts.specs.Drafts.{draft_classes, plain_drafts};
ghost use Rattle.som_sema.specs.TextRules.{text_s2_from};
ghost use Rattle.std.specs.Prelude.{◌≡◌, ◌≤◌, ◌+◌, length, map, take, drop, flat_map, IfOk, None};

use crate::ancestry::{AncestorTable, ancestor_lists};
use crate::bases::{bases_stand, metaclasses_descend};
use indexmap::IndexSet;
use som_model::{ClassFace, List};
use som_sema_drafts::Draft;
use som_sema_local::names_differ;
use som_sema_scope::Scope;
use som_verify_classes::{Declared, KERNEL_CLASSES, VerifyFault, class_names};
use som_verify_parents::parents_differ;
use som_verify_rules::{entries_moved_up, names_introduced_once, types_known, variables_differ};
use std::alloc::Global;

/// The rules S1 to S7 of a module's classes, which stand after those of a base that conforms.
pub fn drafts_hold<'a>(
    alloc: Global,
    scope: &Scope,
    classes: &[Declared<'a>],
    base: usize,
    drafts: &[Draft],
) -> Result<AncestorTable<'a>, VerifyFault>
    requires base { base + length drafts.now ≡ length classes.now }
    requires conforms { faces_breach (classes_of (take base classes.now)) ≡ None }
    requires drafted { AreDrafts (module_in_scope scope.now) (plain_drafts drafts.now) }
    requires own { classes_of (drop base classes.now) ≡ map (class_in scope.now.module) (draft_classes (plain_drafts drafts.now)) }
    ensures tells { Tells (draft_breach (module_in_scope scope.now) (classes_of classes.now) (classes_of (take base classes.now))
        (classes_of (drop base classes.now)) (plain_drafts drafts.now)) result }
    ensures ancestors { IfOk result (IsAncestorTable (classes_of classes.now)) }
{
    let table = own_names_differ(alloc, classes, base)?;
    let lists = named_drafts_hold(alloc, scope, &table, classes, base, drafts)?;
    Ok(AncestorTable { table, lists })
}

// The rules S2 to S7, and the ancestors of all classes.
fn named_drafts_hold(
    alloc: Global,
    scope: &Scope,
    table: &IndexSet<&[u8]>,
    classes: &[Declared],
    base: usize,
    drafts: &[Draft],
) -> Result<Vec<List<usize>>, VerifyFault>
    requires table { IsTable (classes_of classes.now) (texts table.now.keys) }
    requires base { base + length drafts.now ≡ length classes.now }
    requires conforms { faces_breach (classes_of (take base classes.now)) ≡ None }
    requires drafted { AreDrafts (module_in_scope scope.now) (plain_drafts drafts.now) }
    requires own { classes_of (drop base classes.now) ≡ map (class_in scope.now.module) (draft_classes (plain_drafts drafts.now)) }
    ensures tells { Tells (named_breach (module_in_scope scope.now) (classes_of classes.now) (classes_of (take base classes.now))
        (classes_of (drop base classes.now)) (plain_drafts drafts.now)) result }
    ensures lists { IfOk result (λ lists. AreAncestorLists (classes_of classes.now) lists.items) }
    ensures stand { IfOk result (λ lists. first (each_after s2 kernel (classes_of classes.now)) ≡ None) }
{
    own_bases_stand(alloc, scope, table, classes, base, drafts)?;
    own_parents_differ(alloc, classes, base)?;
    let lists = ancestor_lists(alloc, table, classes)?;
    members_hold(alloc, scope, table, classes, lists.as_slice(), base, drafts)?;
    Ok(lists)
}

// The rules S4 to S7.
fn members_hold(
    alloc: Global,
    scope: &Scope,
    table: &IndexSet<&[u8]>,
    classes: &[Declared],
    lists: &[List<usize>],
    base: usize,
    drafts: &[Draft],
) -> Result<(), VerifyFault>
    requires table { IsTable (classes_of classes.now) (texts table.now.keys) }
    requires lists { AreLists (with_kernel (classes_of classes.now)) lists.now }
    requires base { base ≤ length classes.now }
    ensures { Tells (members_breach (module_in_scope scope.now) (classes_of classes.now) (classes_of (drop base classes.now)) (plain_drafts drafts.now)) result }
{
    metaclasses_descend(alloc, scope, table, classes, lists, drafts)?;
    own_types_known(alloc, table, classes, base)?;
    names_differ(alloc, drafts)?;
    own_variables_differ(alloc, classes, base)
}

// S1: the names of the own classes differ from all before them.
fn own_names_differ<'a>(
    alloc: Global,
    classes: &[Declared<'a>],
    base: usize,
) -> Result<IndexSet<&'a [u8]>, VerifyFault>
    requires { faces_breach (classes_of (take base classes.now)) ≡ None }
    ensures tells { Tells (first (each_after s1 (with_kernel (classes_of (take base classes.now))) (classes_of (drop base classes.now)))) result }
    ensures table { IfOk result (λ table. IsTable (classes_of classes.now) (texts table.keys)) }
{
    class_names(alloc, classes)
}

// S2: the parents and metaclass items of the own classes stand before them.
fn own_bases_stand(
    alloc: Global,
    scope: &Scope,
    table: &IndexSet<&[u8]>,
    classes: &[Declared],
    base: usize,
    drafts: &[Draft],
) -> Result<(), VerifyFault>
    requires table { IsTable (classes_of classes.now) (texts table.now.keys) }
    requires base { base + length drafts.now ≡ length classes.now }
    ensures { Tells (first (text_s2_from (module_in_scope scope.now) (with_kernel (classes_of classes.now))
        (length (with_kernel (classes_of (take base classes.now)))) (plain_drafts drafts.now))) result }
{
    bases_stand(alloc, scope, table, classes, drafts, base + KERNEL_CLASSES)
}

// S3, of the own classes.
fn own_parents_differ(alloc: Global, classes: &[Declared], base: usize) -> Result<(), VerifyFault>
    requires { base ≤ length classes.now }
    ensures { Tells (first (flat_map s3 (classes_of (drop base classes.now)))) result }
{
    parents_differ(alloc, &classes[base..])
}

// S7, of the own classes.
fn own_variables_differ(alloc: Global, classes: &[Declared], base: usize) -> Result<(), VerifyFault>
    requires { base ≤ length classes.now }
    ensures { Tells (first (flat_map s7 (classes_of (drop base classes.now)))) result }
{
    variables_differ(alloc, &classes[base..])
}

// S5: the types of the own classes are known.
fn own_types_known(
    alloc: Global,
    table: &IndexSet<&[u8]>,
    classes: &[Declared],
    base: usize,
) -> Result<(), VerifyFault>
    requires table { IsTable (classes_of classes.now) (texts table.now.keys) }
    requires base { base ≤ length classes.now }
    ensures { Tells (first (flat_map (s5 (with_kernel (classes_of classes.now))) (classes_of (drop base classes.now)))) result }
{
    let number = classes.len() + KERNEL_CLASSES;
    types_known(alloc, table, classes, number, &classes[base..])
}

/// The rules S8 and S9 of a module's classes, which stand after those of a base that conforms.
pub fn moves_hold(
    alloc: Global,
    kernel: &[ClassFace],
    ancestors: &AncestorTable,
    classes: &[Declared],
    base: usize,
) -> Result<(), VerifyFault>
    requires kernel { kernel.now ≡ kernel_interface.classes }
    requires ancestors { IsAncestorTable (classes_of classes.now) ancestors.now }
    requires conforms { faces_breach (classes_of (take base classes.now)) ≡ None }
    ensures { Tells (moved_breach (classes_of classes.now) (classes_of (drop base classes.now))) result }
{
    let lists = ancestors.lists.as_slice();
    names_introduced_once(alloc, kernel, classes, lists, base)?;
    entries_moved_up(alloc, &ancestors.table, kernel, classes, lists, base)
}
