//! The first name of a list that stands there twice, as the breach of a rule.

ghost use Rattle.som_model.specs.Lists.{doubles, first};
ghost use Rattle.som_order.specs.Names.{texts};
ghost use Rattle.som_verify_classes.specs.Told.{Tells};
ghost use Rattle.som_sema_drafts.specs.Drafts.{plain_draft};
ghost use Rattle.som_sema_local.specs.OwnRules.{second};
ghost use Rattle.std.specs.Prelude.{◌≡◌, [], IfOk, option_copied};
ghost use Rattle.std.specs.Str.{bytes_eq};

use indexmap::IndexSet;
use som_model::NoMemory;
use som_order::note_name;
use som_sema_drafts::{Draft, breach};
use som_verify_classes::VerifyFault;
use std::alloc::Global;

/// Whether no name of a class stands twice, where a rule asks for it.
pub fn no_double(alloc: Global, rule: u8, draft: &Draft, names: &[&[u8]]) -> Result<(), VerifyFault>
    ensures { Tells (first (second rule (plain_draft draft.now) (texts names.now))) result }
{
    match first_double(alloc, names)? {
        None => Ok(()),
        Some(name) => Err(breach(alloc, rule, draft, name)?),
    }
}

// The first name that stands a second time.
fn first_double<'a>(alloc: Global, names: &[&'a [u8]]) -> Result<Option<&'a [u8]>, NoMemory>
    ensures { IfOk result (λ double. option_copied double ≡ first (doubles bytes_eq [] (texts names.now))) }
{
    let mut seen = IndexSet::new(alloc);
    for name in names {
        if !note_name(&mut seen, *name)? {
            return Ok(Some(*name));
        }
    }
    Ok(None)
}
