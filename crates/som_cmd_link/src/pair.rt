//! The step that gets the client program and the release that are to be linked.

ghost use Rattle.som_cliimage.specs.Limits as programs;
ghost use Rattle.som_libimage.specs.Limits as releases;
ghost use Rattle.som_cmd_link.specs.Cause.{FailsRunning};
ghost use Rattle.som_cmd_link.specs.Pairs.{pair_in};
ghost use Rattle.som_cmd_link.specs.Refusals.{IsRunRefusal};
ghost use Rattle.som_cmd_steps.specs.Cause.{HasCause, IsQuiet};
ghost use Rattle.som_cmd_steps.specs.Refusing.{RefusesAs};
ghost use Rattle.som_cmd_steps.specs.Steps.{FollowsTold};
ghost use Rattle.std.specs.Prelude.{IfOk, ◌≡◌, ◌≤◌};

use som_cmd_steps::{CommandStop, fault_law, fetch, read_program, read_release};
use som_io::Store;
use som_model::{ClientProgram, Release, Text};
use std::alloc::Global;

/// A client program, and the release that it is to run on.
#[derive(Drop)]
pub struct Pair {
    pub program: ClientProgram,
    pub release: Release,
}

/// The client program of the image under one name and the release of the image under another.
#[tactic(auto, using(crate::proofs::Reading::client_missing, crate::proofs::Reading::library_missing, crate::proofs::Reading::client_unread, crate::proofs::Reading::library_unread, crate::proofs::Reading::both_read, crate::proofs::Failing::client_fails, crate::proofs::Failing::library_fails, crate::proofs::Failing::reading_fails, crate::proofs::Refusals::client_absent, crate::proofs::Refusals::library_absent, crate::proofs::Refusals::client_refused, crate::proofs::Refusals::library_refused))]
pub fn fetch_pair<S: Store>(
    alloc: Global,
    client: &Text,
    library: &Text,
    store: &mut S,
) -> Result<Pair, CommandStop>
    ensures answer { FollowsTold (S.files store.old) result (pair_in client.now library.now) }
    ensures program { IfOk result (λ pair. programs.IsWithinLimits pair.program) }
    ensures release { IfOk result (λ pair. releases.IsWithinLimits pair.release) }
    ensures files { S.files store.new ≡ S.files store.old }
    ensures later { S.faults store.old ≤ S.faults store.new }
    ensures cause { HasCause (FailsRunning (S.files store.old) client.now library.now) (S.faults store.old) (S.faults store.new) result }
    ensures quiet { S.calm store.old → IsQuiet result }
    ensures refuses { RefusesAs (IsRunRefusal client.now library.now) result }
{
    fault_law();
    let client_bytes = fetch(alloc, client, store)?;
    let library_bytes = fetch(alloc, library, store)?;
    let program = read_program(alloc, client, &client_bytes)?;
    let release = read_release(alloc, library, &library_bytes)?;
    Ok(Pair { program, release })
}
