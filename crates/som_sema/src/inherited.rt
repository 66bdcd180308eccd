//! What modifiers replace is inherited: S10 of texts.

ghost use Rattle.som_sema_names.specs.Introducers.{AreIntroducers};
ghost use Rattle.som_model.specs.Kernel.{kernel_interface};
ghost use Rattle.som_model.specs.Lists.{first};
ghost use Rattle.som_order.specs.Names.{texts};
ghost use Rattle.som_verify_classes.specs.Modules.{classes_of};
ghost use Rattle.som_verify_classes.specs.Places.{key_at, with_kernel};
ghost use Rattle.som_verify_classes.specs.Told.{Tells};
ghost use Rattle.som_sema_scope.specs.ClassNames.{module_in_scope};
ghost use Rattle.som_sema_scope.specs.Words.{once};
ghost use Rattle.som_sema.specs.Ancestry.{Inherits, IsAncestorTable, IsOfText};
ghost use Rattle.som_sema_drafts.specs.Drafts.{plain_draft, plain_drafts};
ghost use Rattle.som_sema_drafts.specs.Items.{given, given_by, or_object};
ghost use Rattle.som_sema.specs.TextRules as rules;
ghost use Rattle.som_sema.specs.TextRules.{replaces, replaces_inherited, text_s10, text_s10_from};
ghost use Rattle.std.specs.Prelude.{◌≡◌, ◌<◌, ◌+◌, length, map, flat_map, IfOk};

use crate::ancestry::AncestorTable;
use crate::bases::descends_from;
use indexmap::IndexSet;
use som_ast::Modifier;
use som_model::{ClassFace, NoMemory};
use som_order::find_name;
use som_sema_decls::{introducer_place, ranking_above};
use som_sema_drafts::{Draft, Mark, breach, marks, parent_names, selecting};
use som_sema_names::{Introducers, Ranking, introducers_of};
use som_sema_scope::{Scope, table_of};
use som_verify_classes::{Declared, VerifyFault};
use std::alloc::Global;

/// The methods with `select` in a text, and the parents of its interface.
#[derive(Drop)]
pub struct Selecting<'a> {
    pub methods: IndexSet<&'a [u8]>,
    pub parents: IndexSet<&'a [u8]>,
}

/// S10: each method with `override` or `select` is introduced by a proper ancestor, and what is selected is a parent that
/// descends from it. The class of the first draft stands at a place.
pub fn replaced_inherited(
    alloc: Global,
    scope: &Scope,
    kernel: &[ClassFace],
    classes: &[Declared],
    ancestors: &AncestorTable,
    drafts: &[Draft],
    from: usize,
) -> Result<(), VerifyFault>
    requires kernel { kernel.now ≡ kernel_interface.classes }
    requires ancestors { IsAncestorTable (classes_of classes.now) ancestors.now }
    requires from { from + length drafts.now ≡ length (with_kernel (classes_of classes.now)) }
    ensures { Tells (first (text_s10_from (module_in_scope scope.now) (with_kernel (classes_of classes.now)) from (plain_drafts drafts.now))) result }
{
    let introducers = introducers_of(alloc, kernel, classes)?;
    inherited_by(alloc, scope, classes, ancestors, &introducers, drafts, from)
}

// S10 of drafts, where it is known which classes introduce each name.
fn inherited_by(
    alloc: Global,
    scope: &Scope,
    classes: &[Declared],
    ancestors: &AncestorTable,
    introducers: &Introducers,
    drafts: &[Draft],
    from: usize,
) -> Result<(), VerifyFault>
    requires ancestors { IsAncestorTable (classes_of classes.now) ancestors.now }
    requires introducers { AreIntroducers (with_kernel (classes_of classes.now)) introducers.now }
    requires from { from + length drafts.now ≡ length (with_kernel (classes_of classes.now)) }
    ensures { Tells (first (text_s10_from (module_in_scope scope.now) (with_kernel (classes_of classes.now)) from (plain_drafts drafts.now))) result }
{
    let mut place = from;
    for draft in drafts {
        own_inherited(alloc, scope, classes, ancestors, introducers, draft, place)?;
        place += 1;
    }
    Ok(())
}

fn own_inherited(
    alloc: Global,
    scope: &Scope,
    classes: &[Declared],
    ancestors: &AncestorTable,
    introducers: &Introducers,
    draft: &Draft,
    place: usize,
) -> Result<(), VerifyFault>
    requires ancestors { IsAncestorTable (classes_of classes.now) ancestors.now }
    requires introducers { AreIntroducers (with_kernel (classes_of classes.now)) introducers.now }
    requires place { place < length (with_kernel (classes_of classes.now)) }
    ensures { Tells (first (text_s10 (module_in_scope scope.now) (with_kernel (classes_of classes.now))
        (key_at (with_kernel (classes_of classes.now)) place) (plain_draft draft.now))) result }
{
    let marks = marks(alloc, draft.text.items.as_slice())?;
    if marks.is_empty() {
        return Ok(());
    }
    given_inherited(
        alloc,
        scope,
        classes,
        ancestors,
        introducers,
        draft,
        &marks,
        place,
    )
}

// S10 of the modifiers that a draft gives, one or more.
fn given_inherited(
    alloc: Global,
    scope: &Scope,
    classes: &[Declared],
    ancestors: &AncestorTable,
    introducers: &Introducers,
    draft: &Draft,
    marks: &[Mark],
    place: usize,
) -> Result<(), VerifyFault>
    requires ancestors { IsAncestorTable (classes_of classes.now) ancestors.now }
    requires introducers { AreIntroducers (with_kernel (classes_of classes.now)) introducers.now }
    requires marks { map given_by marks.now ≡ given draft.now.text.now.items }
    requires place { place < length (with_kernel (classes_of classes.now)) }
    ensures { Tells (first (flat_map (replaces_inherited (module_in_scope scope.now) (with_kernel (classes_of classes.now))
        (key_at (with_kernel (classes_of classes.now)) place) (plain_draft draft.now)) (map given_by marks.now))) result }
{
    let text = selecting_in(alloc, draft, marks)?;
    ranked_inherited(
        alloc,
        scope,
        classes,
        ancestors,
        introducers,
        &text,
        draft,
        marks,
        place,
    )
}

// S10 of the modifiers that a draft gives, where it is known what its text selects.
fn ranked_inherited(
    alloc: Global,
    scope: &Scope,
    classes: &[Declared],
    ancestors: &AncestorTable,
    introducers: &Introducers,
    text: &Selecting,
    draft: &Draft,
    marks: &[Mark],
    place: usize,
) -> Result<(), VerifyFault>
    requires ancestors { IsAncestorTable (classes_of classes.now) ancestors.now }
    requires introducers { AreIntroducers (with_kernel (classes_of classes.now)) introducers.now }
    requires text { IsOfText draft.now.text.now text.now }
    requires place { place < length (with_kernel (classes_of classes.now)) }
    ensures { Tells (first (flat_map (replaces_inherited (module_in_scope scope.now) (with_kernel (classes_of classes.now))
        (key_at (with_kernel (classes_of classes.now)) place) (plain_draft draft.now)) (map given_by marks.now))) result }
{
    let lists = ancestors.lists.as_slice();
    let above = ranking_above(alloc, introducers, classes, lists, place)?;
    marks_inherited(
        alloc, scope, classes, ancestors, &above, text, draft, marks, place,
    )
}

fn selecting_in<'a>(
    alloc: Global,
    draft: &'a Draft,
    marks: &[Mark<'a>],
) -> Result<Selecting<'a>, NoMemory>
    requires { map given_by marks.now ≡ given draft.now.text.now.items }
    ensures { IfOk result (IsOfText draft.now.text.now) }
{
    let parents = parent_table(alloc, draft)?;
    let methods = selecting(alloc, marks)?;
    Ok(Selecting { methods, parents })
}

fn parent_table<'a>(alloc: Global, draft: &'a Draft) -> Result<IndexSet<&'a [u8]>, NoMemory>
    ensures { IfOk result (λ parents. texts parents.keys ≡ once (or_object draft.now.text.now.parents)) }
{
    let names = parent_names(alloc, draft.text.parents.as_slice())?;
    table_of(alloc, &names)
}

fn marks_inherited(
    alloc: Global,
    scope: &Scope,
    classes: &[Declared],
    ancestors: &AncestorTable,
    above: &Ranking,
    text: &Selecting,
    draft: &Draft,
    marks: &[Mark],
    place: usize,
) -> Result<(), VerifyFault>
    requires above { Inherits (classes_of classes.now) ancestors.now place above.now }
    requires text { IsOfText draft.now.text.now text.now }
    ensures { Tells (first (flat_map (replaces_inherited (module_in_scope scope.now) (with_kernel (classes_of classes.now))
        (key_at (with_kernel (classes_of classes.now)) place) (plain_draft draft.now)) (map given_by marks.now))) result }
{
    for mark in marks {
        if !mark_inherits(alloc, scope, classes, ancestors, above, text, mark, place)? {
            return Err(breach(alloc, 10, draft, mark.method)?);
        }
    }
    Ok(())
}

fn mark_inherits(
    alloc: Global,
    scope: &Scope,
    classes: &[Declared],
    ancestors: &AncestorTable,
    above: &Ranking,
    text: &Selecting,
    mark: &Mark,
    place: usize,
) -> Result<bool, NoMemory>
    requires { Inherits (classes_of classes.now) ancestors.now place above.now }
    ensures { IfOk result (λ b. b ≡ replaces (module_in_scope scope.now) (with_kernel (classes_of classes.now))
        (key_at (with_kernel (classes_of classes.now)) place) (texts text.now.parents.keys) (texts text.now.methods.keys) mark.now.method.now mark.now.modifier.now) }
{
    match mark.modifier {
        Modifier::Override => Ok(
            find_name(&text.methods, mark.method).is_some()
                || is_inherited(classes, ancestors, above, mark.method, place),
        ),
        Modifier::NameLookup => Ok(true),
        Modifier::Offset => Ok(true),
        Modifier::Select { parent } => {
            let parent = parent.text.as_slice();
            if find_name(&text.parents, parent).is_none() {
                return Ok(false);
            }
            may_take(
                alloc,
                scope,
                classes,
                ancestors,
                above,
                mark.method,
                parent,
                place,
            )
        }
    }
}

fn is_inherited(
    classes: &[Declared],
    ancestors: &AncestorTable,
    above: &Ranking,
    name: &[u8],
    place: usize,
) -> bool
    requires { Inherits (classes_of classes.now) ancestors.now place above.now }
    ensures { result ≡ rules.is_inherited (with_kernel (classes_of classes.now)) (key_at (with_kernel (classes_of classes.now)) place) name.now }
{
    introducer_place(above, place, name) != place
}

// Whether a method is inherited, and a class of this name descends from the one that introduces it.
fn may_take(
    alloc: Global,
    scope: &Scope,
    classes: &[Declared],
    ancestors: &AncestorTable,
    above: &Ranking,
    name: &[u8],
    parent: &[u8],
    place: usize,
) -> Result<bool, NoMemory>
    requires { Inherits (classes_of classes.now) ancestors.now place above.now }
    ensures { IfOk result (λ b. b ≡ rules.may_take (module_in_scope scope.now) (with_kernel (classes_of classes.now))
        (key_at (with_kernel (classes_of classes.now)) place) name.now parent.now) }
{
    let at = introducer_place(above, place, name);
    if at == place {
        return Ok(false);
    }
    let lists = ancestors.lists.as_slice();
    descends_from(alloc, scope, &ancestors.table, classes, lists, parent, at)
}
