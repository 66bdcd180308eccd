//! The check of each class against the limits on its members.

ghost use Rattle.som_elab_methods.specs.Limits as spec;
ghost use Rattle.som_elab_methods.specs.Limits.{KeepsLimit, class_limits, entry_limits, limit_passed};
ghost use Rattle.som_model.specs.Lists.{first};
ghost use Rattle.som_sema_drafts.specs.Drafts.{plain_draft, plain_drafts};
ghost use Rattle.std.specs.Prelude.{flat_map};

use crate::selects::selected;
use som_model::{
    Entry, MAX_ENTRIES, MAX_OVERRIDES, MAX_PARAMETERS, MAX_PARENTS, MAX_SELECTS, MAX_VARIABLES,
    Text,
};
use som_sema_drafts::{Draft, Refused};
use std::alloc::Global;

/// Ok where each class is within its limits, or the first limit that the first class beyond one passes.
#[tactic(auto, using(crate::proofs::LimitLaws::limit_stops))]
pub fn limits_kept(alloc: Global, drafts: &[Draft]) -> Result<(), Refused>
    ensures { KeepsLimit (limit_passed (plain_drafts drafts.now)) result }
{
    for draft in drafts {
        class_kept(alloc, draft)?;
    }
    Ok(())
}

fn class_kept(alloc: Global, draft: &Draft) -> Result<(), Refused>
    ensures { KeepsLimit (first (class_limits (plain_draft draft.now))) result }
{
    let decl = &draft.decl;
    let face = &decl.face;
    at_most(alloc, b"parents", MAX_PARENTS, face.parents.len())?;
    at_most(alloc, b"entries", MAX_ENTRIES, face.entries.len())?;
    at_most(alloc, b"overrides", MAX_OVERRIDES, decl.overrides.len())?;
    let chosen = selected(alloc, draft.text.items.as_slice())?;
    at_most(alloc, b"selects", MAX_SELECTS, chosen.len())?;
    at_most(alloc, b"variables", MAX_VARIABLES, decl.variables.len())?;
    entries_kept(alloc, face.entries.as_slice())
}

fn entries_kept(alloc: Global, entries: &[Entry]) -> Result<(), Refused>
    ensures { KeepsLimit (first (flat_map entry_limits entries.now)) result }
{
    for entry in entries {
        if let Entry::Introduced { sig, .. } = entry {
            at_most(alloc, b"parameters", MAX_PARAMETERS, sig.params.len())?;
        }
    }
    Ok(())
}

fn at_most(alloc: Global, quantity: &[u8], number: u32, count: usize) -> Result<(), Refused>
    ensures { KeepsLimit (first (spec.at_most quantity.now number count)) result }
{
    if count <= number as usize {
        return Ok(());
    }
    Err(Refused::Limit {
        quantity: Text::from_slice(alloc, quantity)?,
        number,
    })
}
