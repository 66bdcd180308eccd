//! S2 and S4 of texts: parents and metaclasses are declared before, and metaclasses are below SOMClass.

ghost use Rattle.som_model.specs.Classes.{class_at, is_a};
ghost use Rattle.som_model.specs.Kernel.{som_class};
ghost use Rattle.som_model.specs.Lists.{first};
ghost use Rattle.som_order.specs.Names.{texts};
ghost use Rattle.som_verify_classes.specs.Modules.{classes_of};
ghost use Rattle.som_verify_classes.specs.Places.{IsTable, key_at as key_at_place, with_kernel};
ghost use Rattle.som_verify_classes.specs.Told.{Tells};
ghost use Rattle.som_verify_classes.specs.Walk.{AreLists};
ghost use Rattle.som_sema_scope.specs.ClassNames as names_of_classes;
ghost use Rattle.som_sema_scope.specs.ClassNames.{module_in_scope};
ghost use Rattle.som_sema_drafts.specs.Drafts.{plain_draft, plain_drafts};
ghost use Rattle.som_sema.specs.TextRules.{text_s2, text_s2_from, text_s4};
ghost use Rattle.som_sema_drafts.specs.declared.drafts.Draft.{Draft as Known};
ghost use Rattle.std.specs.Prelude.{◌≡◌, ◌<◌, ◌+◌, length, take, flat_map, is_some, slice_get, IfOk, Some};

use indexmap::IndexSet;
use som_model::{List, NoMemory};
use som_sema_drafts::{Draft, breach, each_draft};
use som_sema_local::{base_names, metaclass_names};
use som_sema_scope::{Scope, key_of};
use som_verify_classes::{Declared, KERNEL_CLASSES, VerifyFault, descends_by, find_class};
use std::alloc::Global;

/// The place of the class of classes.
const SOM_CLASS: usize = 1;

/// S2: each parent and each metaclass item names a class that stands before its class, the first of which stands at a place.
pub fn bases_stand(
    alloc: Global,
    scope: &Scope,
    table: &IndexSet<&[u8]>,
    classes: &[Declared],
    drafts: &[Draft],
    from: usize,
) -> Result<(), VerifyFault>
    requires table { IsTable (classes_of classes.now) (texts table.now.keys) }
    requires from { from + length drafts.now ≡ length (with_kernel (classes_of classes.now)) }
    ensures { Tells (first (text_s2_from (module_in_scope scope.now) (with_kernel (classes_of classes.now)) from (plain_drafts drafts.now))) result }
{
    let mut place = from;
    for draft in drafts {
        own_bases_stand(alloc, scope, table, classes, draft, place)?;
        place += 1;
    }
    Ok(())
}

fn own_bases_stand(
    alloc: Global,
    scope: &Scope,
    table: &IndexSet<&[u8]>,
    classes: &[Declared],
    draft: &Draft,
    place: usize,
) -> Result<(), VerifyFault>
    requires { IsTable (classes_of classes.now) (texts table.now.keys) }
    ensures { Tells (first (text_s2 (module_in_scope scope.now) (take place (with_kernel (classes_of classes.now))) (plain_draft draft.now))) result }
{
    let names = base_names(alloc, draft.text)?;
    for name in names.as_slice() {
        if !stands(alloc, scope, table, classes, *name, place)? {
            return Err(breach(alloc, 2, draft, *name)?);
        }
    }
    Ok(())
}

// Whether a class of that name stands before the place.
fn stands(
    alloc: Global,
    scope: &Scope,
    table: &IndexSet<&[u8]>,
    classes: &[Declared],
    name: &[u8],
    place: usize,
) -> Result<bool, NoMemory>
    requires { IsTable (classes_of classes.now) (texts table.now.keys) }
    ensures { IfOk result (λ b. b ≡ is_some (class_at (take place (with_kernel (classes_of classes.now))) (names_of_classes.key_of (module_in_scope scope.now) name.now))) }
{
    let key = key_of(alloc, scope, name)?;
    Ok(find_class(table, classes, &key, place).is_some())
}

/// S4: each metaclass item names a class that descends from SOMClass.
pub fn metaclasses_descend(
    alloc: Global,
    scope: &Scope,
    table: &IndexSet<&[u8]>,
    classes: &[Declared],
    lists: &[List<usize>],
    drafts: &[Draft],
) -> Result<(), VerifyFault>
    requires table { IsTable (classes_of classes.now) (texts table.now.keys) }
    requires lists { AreLists (with_kernel (classes_of classes.now)) lists.now }
    ensures { Tells (first (flat_map (text_s4 (module_in_scope scope.now) (with_kernel (classes_of classes.now))) (plain_drafts drafts.now))) result }
{
    each_draft(
        drafts,
        |place: usize| -> Result<(), VerifyFault>
            requires place { place < length drafts.now }
            requires table { IsTable (classes_of classes.now) (texts table.now.keys) }
            requires lists { AreLists (with_kernel (classes_of classes.now)) lists.now }
            ensures { (d : Known) → slice_get drafts.entry.now place ≡ Some d →
                Tells (first (text_s4 (module_in_scope scope.entry.now) (with_kernel (classes_of classes.entry.now)) (plain_draft d))) result }
        { own_metaclasses_descend(alloc, scope, table, classes, lists, &drafts[place]) },
    )
}

fn own_metaclasses_descend(
    alloc: Global,
    scope: &Scope,
    table: &IndexSet<&[u8]>,
    classes: &[Declared],
    lists: &[List<usize>],
    draft: &Draft,
) -> Result<(), VerifyFault>
    requires table { IsTable (classes_of classes.now) (texts table.now.keys) }
    requires lists { AreLists (with_kernel (classes_of classes.now)) lists.now }
    ensures { Tells (first (text_s4 (module_in_scope scope.now) (with_kernel (classes_of classes.now)) (plain_draft draft.now))) result }
{
    let names = metaclass_names(alloc, draft.text.items.as_slice())?;
    for name in names.as_slice() {
        if !makes_classes(alloc, scope, table, classes, lists, *name)? {
            return Err(breach(alloc, 4, draft, b"-")?);
        }
    }
    Ok(())
}

// Whether the class that a name stands for descends from SOMClass.
fn makes_classes(
    alloc: Global,
    scope: &Scope,
    table: &IndexSet<&[u8]>,
    classes: &[Declared],
    lists: &[List<usize>],
    name: &[u8],
) -> Result<bool, NoMemory>
    requires table { IsTable (classes_of classes.now) (texts table.now.keys) }
    requires lists { AreLists (with_kernel (classes_of classes.now)) lists.now }
    ensures { IfOk result (λ b. b ≡ is_a (with_kernel (classes_of classes.now)) (names_of_classes.key_of (module_in_scope scope.now) name.now) som_class) }
{
    descends_from(alloc, scope, table, classes, lists, name, SOM_CLASS)
}

/// Whether the class that a name stands for descends from the class at a place.
pub fn descends_from(
    alloc: Global,
    scope: &Scope,
    table: &IndexSet<&[u8]>,
    classes: &[Declared],
    lists: &[List<usize>],
    name: &[u8],
    ancestor: usize,
) -> Result<bool, NoMemory>
    requires table { IsTable (classes_of classes.now) (texts table.now.keys) }
    requires lists { AreLists (with_kernel (classes_of classes.now)) lists.now }
    requires ancestor { ancestor < length (with_kernel (classes_of classes.now)) }
    ensures { IfOk result (λ b. b ≡ is_a (with_kernel (classes_of classes.now)) (names_of_classes.key_of (module_in_scope scope.now) name.now)
        (key_at_place (with_kernel (classes_of classes.now)) ancestor)) }
{
    let key = key_of(alloc, scope, name)?;
    match find_class(table, classes, &key, classes.len() + KERNEL_CLASSES) {
        None => Ok(false),
        Some(place) => Ok(descends_by(lists, place, ancestor)),
    }
}
