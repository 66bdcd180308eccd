//! The test of a client with a library: the first rule that is broken, or what the library doesn't keep.

ghost use Rattle.som_compat.specs.Conditions.{Conforms};
ghost use Rattle.som_link_check.specs.Pairs.{Breaks, DoesntKeep, ProgramCounted, ReleaseCounted, obstacle};
ghost use Rattle.som_link_check.specs.Told.{Tells};
ghost use Rattle.som_model.specs.Binds.{Binds};
ghost use Rattle.som_model.specs.Class.{interface_of};
ghost use Rattle.som_model.specs.Classes.{client_classes, library_classes};
ghost use Rattle.som_model.specs.Compatible.{first_break};
ghost use Rattle.som_model.specs.Conforming.{ProgramOk, ReleaseOk, program_breach, release_breach};
ghost use Rattle.som_model.specs.Loads.{Loads};
ghost use Rattle.std.specs.Option.{option_map};
ghost use Rattle.std.specs.Prelude.{◌≡◌, ◌++◌, IfOk, false, true};

use crate::fault::{LinkFault, incompatible};
use som_compat::compatible;
use som_model::{ClientProgram, Release};
use som_verify::{program_ok, release_ok};
use som_verify_classes::VerifyFault;
use std::alloc::Global;

/// Goes on where a library keeps the rules.
fn look_at_library(alloc: Global, library: &Release) -> Result<(), LinkFault>
    ensures tells { Tells (option_map (Breaks false) (release_breach library.now)) result }
    ensures conforms { IfOk result (λ _. ReleaseOk library.now) }
{
    match release_ok(alloc, library) {
        Ok(()) => Ok(()),
        Err(VerifyFault::Rule(broken)) => Err(LinkFault::NotConforming {
            client: false,
            broken,
        }),
        Err(VerifyFault::NoMemory) => Err(LinkFault::NoMemory),
    }
}

/// Goes on where a client keeps the rules.
fn look_at_client(alloc: Global, client: &ClientProgram) -> Result<(), LinkFault>
    ensures tells { Tells (option_map (Breaks true) (program_breach client.now)) result }
    ensures conforms { IfOk result (λ _. ProgramOk client.now) }
{
    match program_ok(alloc, client) {
        Ok(()) => Ok(()),
        Err(VerifyFault::Rule(broken)) => Err(LinkFault::NotConforming {
            client: true,
            broken,
        }),
        Err(VerifyFault::NoMemory) => Err(LinkFault::NoMemory),
    }
}

/// Goes on where a library keeps all that a client was compiled against.
fn look_at_base(alloc: Global, library: &Release, client: &ClientProgram) -> Result<(), LinkFault>
    requires library { Conforms (interface_of library.now) }
    requires client { Conforms client.now.base }
    ensures { Tells (option_map DoesntKeep (first_break client.now.base (interface_of library.now))) result }
{
    let shown = library.interface(alloc)?;
    match compatible(&client.base, &shown) {
        Ok(()) => Ok(()),
        Err(breach) => Err(incompatible(alloc, &breach)),
    }
}

/// Whether a client can be linked with a library, and else what is in the way first: the rules of the library, those of the client, or that the library
/// doesn't keep what the client was compiled against. A pair that passes binds and can be loaded; there is no other limit.
#[tactic(auto, using(crate::proofs::Pairs::told_first, crate::proofs::Pairs::told_after, crate::proofs::Pairs::passes))]
pub fn look_at_pair(
    alloc: Global,
    library: &Release,
    client: &ClientProgram,
) -> Result<(), LinkFault>
    requires library { ReleaseCounted library.now }
    requires client { ProgramCounted client.now }
    ensures tells { Tells (obstacle library.now client.now) result }
    ensures binds { IfOk result (λ _. Binds client.now library.now) }
    ensures loads { IfOk result (λ _. Loads (library_classes library.now ++ client_classes client.now) client.now.main) }
{
    look_at_library(alloc, library)?;
    look_at_client(alloc, client)?;
    look_at_base(alloc, library, client)
}
