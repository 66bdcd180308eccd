//! S6 and S12: no member and no item of an interface stands twice.

ghost use Rattle.som_model.specs.Class.{introduced};
ghost use Rattle.som_model.specs.Lists.{first};
ghost use Rattle.som_verify_classes.specs.Told.{Tells};
ghost use Rattle.som_sema_drafts.specs.Drafts.{plain_draft, plain_drafts};
ghost use Rattle.som_sema_drafts.specs.Items as spec;
ghost use Rattle.som_sema_local.specs.OwnRules.{second, text_s12, text_s6};
ghost use Rattle.som_sema_drafts.specs.declared.drafts.Draft.{Draft as Known};
ghost use Rattle.std.specs.Prelude.{◌≡◌, ◌<◌, length, flat_map, slice_get, Some};

use crate::double::no_double;
use crate::single::item_words;
use som_sema_drafts::{Draft, each_draft, introduced_names, listed};
use som_verify_classes::VerifyFault;
use std::alloc::Global;

/// S6: the names that a class introduces are distinct, and those of its release order are.
pub fn names_differ(alloc: Global, drafts: &[Draft]) -> Result<(), VerifyFault>
    ensures { Tells (first (flat_map text_s6 (plain_drafts drafts.now))) result }
{
    each_draft(
        drafts,
        |place: usize| -> Result<(), VerifyFault>
            requires { place < length drafts.now }
            ensures { (d : Known) → slice_get drafts.entry.now place ≡ Some d → Tells (first (text_s6 (plain_draft d))) result }
        { own_names_differ(alloc, &drafts[place]) },
    )
}

fn own_names_differ(alloc: Global, draft: &Draft) -> Result<(), VerifyFault>
    ensures { Tells (first (text_s6 (plain_draft draft.now))) result }
{
    introduced_differ(alloc, draft)?;
    listed_differ(alloc, draft)
}

fn introduced_differ(alloc: Global, draft: &Draft) -> Result<(), VerifyFault>
    ensures { Tells (first (second 6 (plain_draft draft.now) (introduced draft.now.decl.face.entries))) result }
{
    let names = introduced_names(alloc, draft.decl.face.entries.as_slice())?;
    no_double(alloc, 6, draft, &names)
}

fn listed_differ(alloc: Global, draft: &Draft) -> Result<(), VerifyFault>
    ensures { Tells (first (second 6 (plain_draft draft.now) (spec.listed draft.now.text.now.items))) result }
{
    let names = listed(alloc, draft.text.items.as_slice())?;
    no_double(alloc, 6, draft, &names)
}

/// S12: the release order, the metaclass and the versions are said once.
pub fn items_differ(alloc: Global, drafts: &[Draft]) -> Result<(), VerifyFault>
    ensures { Tells (first (flat_map text_s12 (plain_drafts drafts.now))) result }
{
    each_draft(
        drafts,
        |place: usize| -> Result<(), VerifyFault>
            requires { place < length drafts.now }
            ensures { (d : Known) → slice_get drafts.entry.now place ≡ Some d → Tells (first (text_s12 (plain_draft d))) result }
        { own_items_differ(alloc, &drafts[place]) },
    )
}

fn own_items_differ(alloc: Global, draft: &Draft) -> Result<(), VerifyFault>
    ensures { Tells (first (text_s12 (plain_draft draft.now))) result }
{
    let words = item_words(alloc, draft.text.items.as_slice())?;
    no_double(alloc, 12, draft, &words)
}
