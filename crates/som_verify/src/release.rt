//! Checks a release, and answers the first rule that it breaks.

ghost use Rattle.som_model.specs.Conforming.{ReleaseOk, release_breach};
ghost use Rattle.som_verify_classes.specs.Told.{Tells};
ghost use Rattle.som_verify_classes.specs.declared.types.Broken.{Broken};
ghost use Rattle.som_verify_classes.specs.declared.types.VerifyFault.TheVariants as faults;
ghost use Rattle.std.specs.Prelude.{◌≡◌, Err, IfOk};

use som_model::{ClassDecl, Module, Release};
use som_verify_classes::VerifyFault;
use som_verify_parents::declare;
use som_verify_rules::ancestors_where_rules_hold;
use som_verify_types::blocks_typed;
use std::alloc::Global;

/// Whether a release conforms, and else the first rule that it breaks, with its class and member.
pub fn release_ok(alloc: Global, release: &Release) -> Result<(), VerifyFault>
    ensures tells { Tells (release_breach release.now) result }
    ensures conforms { IfOk result (λ _. ReleaseOk release.now) }
    ensures refuses { (b : Broken) → result ≡ Err (faults.Rule b) → ReleaseOk release.now → ⊥ }
{
    all_rules_hold(alloc, release)
}

fn all_rules_hold(alloc: Global, release: &Release) -> Result<(), VerifyFault>
    ensures { Tells (release_breach release.now) result }
{
    let declared = declare(Vec::new(alloc), Module::Library, release.classes.as_slice())?;
    let declared = declared.as_slice();
    let ancestors = ancestors_where_rules_hold(alloc, declared, 0)?;
    blocks_typed(alloc, declared, 0, ancestors)
}
