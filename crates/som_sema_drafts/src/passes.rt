//! A rule as a pass over all drafts, up to the first breach.

ghost use Rattle.som_model.specs.Lists.{first};
ghost use Rattle.som_model.specs.Rules.{RuleBreach};
ghost use Rattle.som_verify_classes.specs.Told.{Tells};
ghost use Rattle.som_verify_classes.specs.declared.types.VerifyFault.TheVariants as faults;
ghost use Rattle.som_verify_classes.specs.declared.types.VerifyFault.{VerifyFault as Fault};
ghost use Rattle.som_sema_drafts.specs.Drafts.{InterfaceDraft, plain_draft, plain_drafts};
ghost use Rattle.som_sema_drafts.specs.declared.drafts.Draft.{Draft as Known};
ghost use Rattle.std.specs.Prelude.{◌≡◌, ◌<◌, ℕ, List as Seq, length, flat_map, slice_get, IfOk, Result, Some};

use crate::Draft;
use som_model::{NoMemory, Text};
use som_verify_classes::{Broken, VerifyFault};
use std::alloc::Global;

/// The breach of a rule by a member of a draft's class, with copies of both names.
pub fn breach(
    alloc: Global,
    rule: u8,
    draft: &Draft,
    member: &[u8],
) -> Result<VerifyFault, NoMemory>
    ensures { IfOk result (λ e. e ≡ faults.Rule
        (record { rule = rule; class = draft.now.decl.face.name; member = member.now })) }
{
    Ok(VerifyFault::Rule(Broken {
        rule,
        class: draft.decl.face.name.copy(alloc)?,
        member: Text::from_slice(alloc, member)?,
    }))
}

/// Asks a rule of each draft in order, by its place in the list; the first fault ends the pass.
pub fn each_draft<F: Fn(usize) -> Result<(), VerifyFault>>(
    drafts: &[Draft],
    rule: F,
) -> Result<(), VerifyFault>
    requires callable { (place : ℕ) → place < length drafts.now → F.pre rule place }
    ensures { (one : InterfaceDraft → Seq RuleBreach) →
        ((place : ℕ) (d : Known) (r : Result (Unit {0}) Fault) → slice_get drafts.now place ≡ Some d →
        F.post rule place r → Tells (first (one (plain_draft d))) r) →
        Tells (first (flat_map one (plain_drafts drafts.now))) result }
{
    for place in 0..drafts.len() {
        rule(place)?;
    }
    Ok(())
}
