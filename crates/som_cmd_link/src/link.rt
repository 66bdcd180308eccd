//! The step that links a client image with a library image to a kernel.

ghost use Rattle.som_cliimage.specs.Limits as programs;
ghost use Rattle.som_libimage.specs.Limits as releases;
ghost use Rattle.som_cmd_link.specs.Cause.{FailsRunning};
ghost use Rattle.som_cmd_link.specs.Kernels.{Links, LinksTold};
ghost use Rattle.som_cmd_link.specs.Pairs.{kept_pair};
ghost use Rattle.som_cmd_link.specs.Refusals.{IsRunRefusal};
ghost use Rattle.som_cmd_steps.specs.Cause.{HasCause, IsQuiet};
ghost use Rattle.som_cmd_steps.specs.Refusing.{RefusesAs};
ghost use Rattle.std.specs.Prelude.{◌≡◌, ◌≤◌};

use crate::fault::stop_of;
use crate::pair::{Pair, fetch_pair};
use som_classmgr::{Kernel, Linked};
use som_cmd_steps::CommandStop;
use som_io::Store;
use som_link_limits::counted_law;
use som_model::Text;
use std::alloc::Global;

// The kernel of a client program and a release, or what is first in the way of linking them.
#[tactic(auto, using(crate::proofs::Linking::not_linked, crate::proofs::Linking::quietly, crate::proofs::Linking::linked))]
fn link_pair(
    alloc: Global,
    client: &Text,
    library: &Text,
    pair: Pair,
) -> Result<Kernel<Linked>, CommandStop>
    requires program { programs.IsWithinLimits pair.program }
    requires release { releases.IsWithinLimits pair.release }
    ensures links { Links (kept_pair client.now library.now pair) result }
    ensures quiet { IsQuiet result }
{
    counted_law();
    let Pair { program, release } = pair;
    match Kernel::new()?.link_owned(alloc, release, program) {
        Ok(kernel) => Ok(kernel),
        Err(fault) => Err(stop_of(alloc, client, library, &fault)),
    }
}

/// The kernel of the client image under one name and the library image under another, or what is first in the way of linking them.
#[tactic(auto, using(crate::proofs::Linking::not_read, crate::proofs::Linking::then_linked, crate::proofs::Failing::linking_fails))]
pub fn link_images<S: Store>(
    alloc: Global,
    client: &Text,
    library: &Text,
    store: &mut S,
) -> Result<Kernel<Linked>, CommandStop>
    ensures answer { LinksTold (S.files store.old) client.now library.now result }
    ensures files { S.files store.new ≡ S.files store.old }
    ensures later { S.faults store.old ≤ S.faults store.new }
    ensures cause { HasCause (FailsRunning (S.files store.old) client.now library.now) (S.faults store.old) (S.faults store.new) result }
    ensures quiet { S.calm store.old → IsQuiet result }
    ensures refuses { RefusesAs (IsRunRefusal client.now library.now) result }
{
    let pair = fetch_pair(alloc, client, library, store)?;
    link_pair(alloc, client, library, pair)
}
