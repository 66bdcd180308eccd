//! S14: each operation and each overridden method has exactly one body.

ghost use Rattle.som_elab_methods.specs.Bodies.{entry_has_one, has_one, operations as declared, text_s14};
ghost use Rattle.som_elab_methods.specs.Tables.{HaveNames};
ghost use Rattle.som_elab_methods.specs.Texts.{given};
ghost use Rattle.som_model.specs.Class.{introduced};
ghost use Rattle.som_model.specs.Lists.{first};
ghost use Rattle.som_model.specs.declared.class.Override.{Override as Replaced};
ghost use Rattle.som_order.specs.Names.{texts};
ghost use Rattle.som_verify_classes.specs.Told.{Tells};
ghost use Rattle.som_sema_drafts.specs.Drafts.{plain_draft, plain_drafts};
ghost use Rattle.som_sema_drafts.specs.declared.drafts.Draft.{Draft as Known};
ghost use Rattle.std.specs.Prelude.{◌≡◌, ◌<◌, length, flat_map, slice_get, Some};

use crate::body_names::BodyNames;
use crate::grouped::ModuleTexts;
use crate::operations::{is_operation, operation_names};
use indexmap::IndexSet;
use som_ast::BodyText;
use som_sema_drafts::{Draft, breach, each_draft, introduced_names};
use som_verify_classes::VerifyFault;
use std::alloc::Global;

/// S14: each operation and each method that is overridden has exactly one body.
pub fn bodies_counted(
    alloc: Global,
    drafts: &[Draft],
    texts: &ModuleTexts,
) -> Result<(), VerifyFault>
    ensures { Tells (first (flat_map (text_s14 (given texts.now.all.now)) (plain_drafts drafts.now))) result }
{
    each_draft(
        drafts,
        |place: usize| -> Result<(), VerifyFault>
            requires { place < length drafts.now }
            ensures { (d : Known) → slice_get drafts.entry.now place ≡ Some d → Tells (first (text_s14 (given texts.entry.now.all.now) (plain_draft d))) result }
        { own_counted(alloc, &drafts[place], texts) },
    )
}

// Only the bodies of the class are looked at for each of its methods.
fn own_counted(alloc: Global, draft: &Draft, texts: &ModuleTexts) -> Result<(), VerifyFault>
    ensures { Tells (first (text_s14 (given texts.now.all.now) (plain_draft draft.now))) result }
{
    let own = texts.of_class(draft.decl.face.name.as_slice());
    members_counted(alloc, draft, own)
}

fn members_counted(alloc: Global, draft: &Draft, own: &[&BodyText]) -> Result<(), VerifyFault>
    ensures { Tells (first (text_s14 (given own.now) (plain_draft draft.now))) result }
{
    let bodies = BodyNames::noted(alloc, draft, own)?;
    bodied_members(alloc, &bodies)
}

fn bodied_members(alloc: Global, bodies: &BodyNames) -> Result<(), VerifyFault>
    ensures { Tells (first (text_s14 (given bodies.now.own.now) (plain_draft bodies.now.draft.now))) result }
{
    introduced_counted(alloc, bodies)?;
    overridden_counted(alloc, bodies)
}

fn introduced_counted(alloc: Global, bodies: &BodyNames) -> Result<(), VerifyFault>
    ensures { Tells (first (flat_map (entry_has_one (given bodies.now.own.now) (plain_draft bodies.now.draft.now))
        (introduced bodies.now.draft.now.decl.face.entries))) result }
{
    let draft = bodies.draft;
    let operations = operation_names(alloc, draft.text)?;
    let names = introduced_names(alloc, draft.decl.face.entries.as_slice())?;
    operations_counted(alloc, bodies, &operations, names.as_slice())
}

fn operations_counted(
    alloc: Global,
    bodies: &BodyNames,
    operations: &IndexSet<&[u8]>,
    names: &[&[u8]],
) -> Result<(), VerifyFault>
    requires { HaveNames (declared bodies.now.draft.now.text.now) (texts operations.now.keys) }
    ensures { Tells (first (flat_map (entry_has_one (given bodies.now.own.now) (plain_draft bodies.now.draft.now)) (texts names.now))) result }
{
    let draft = bodies.draft;
    for name in names {
        if is_operation(draft.text, operations, *name) && !bodies.is_one(*name) {
            return Err(breach(alloc, 14, draft, *name)?);
        }
    }
    Ok(())
}

fn overridden_counted(alloc: Global, bodies: &BodyNames) -> Result<(), VerifyFault>
    ensures { Tells (first (flat_map (λ (o : Replaced). has_one (given bodies.now.own.now) (plain_draft bodies.now.draft.now) o.method.name)
        bodies.now.draft.now.decl.overrides)) result }
{
    let draft = bodies.draft;
    for replaced in draft.decl.overrides.as_slice() {
        let name = replaced.method.name.as_slice();
        if !bodies.is_one(name) {
            return Err(breach(alloc, 14, draft, name)?);
        }
    }
    Ok(())
}
