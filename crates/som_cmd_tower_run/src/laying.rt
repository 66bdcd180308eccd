//! The steps of a tower before main: its images are got, read and looked at, and it is laid out.

ghost use Rattle.som_cmd_levels.specs.Refusals.{IsKeptRefusal};
ghost use Rattle.som_cmd_steps.specs.Cause.{HasCause, IsQuiet, IsQuietStop};
ghost use Rattle.som_cmd_steps.specs.Getting.{FailsGetting};
ghost use Rattle.som_cmd_steps.specs.Refusing.{RefusesAs};
ghost use Rattle.som_cmd_tower_run.specs.Faults.{IsWithin, StopsFor};
ghost use Rattle.som_cmd_tower_run.specs.Kernels.{Lays, LaysTold};
ghost use Rattle.som_cmd_tower_run.specs.Refusals.{IsTowerRefusal};
ghost use Rattle.som_cmd_tower_run.specs.Steps.{kept_tower, laid_of};
ghost use Rattle.som_tower.specs.Towers.{IsTowerOf};
ghost use Rattle.std.specs.Prelude.{length, ◌+◌, ◌∷◌, ◌≡◌, ◌≤◌};

use crate::checking::checked_tower;
use crate::tower::Tower;
use som_classmgr::{Kernel, Linked};
use som_cmd_levels::{breach_level_law, refuse_level};
use som_cmd_steps::{CommandStop, fetch, fetch_all};
use som_compat_levels::LevelFault;
use som_io::Store;
use som_model::{List, Text};
use som_tower::lay_tower;
use std::alloc::Global;

// What stops a run whose tower isn't laid out.
fn stop_of(alloc: Global, below: &[Text], fault: &LevelFault) -> CommandStop
    requires { IsWithin (length below.now) fault.now }
    ensures stops { StopsFor below.now fault.now result }
    ensures quiet { IsQuietStop result }
{
    match fault {
        LevelFault::Breach(breach) => match refuse_level(alloc, below, breach) {
            Ok(refusal) => CommandStop::Refused(refusal),
            Err(_) => CommandStop::NoMemory,
        },
        LevelFault::NoMemory => CommandStop::NoMemory,
    }
}

// The kernel of a tower, or what a level doesn't keep first.
#[tactic(auto, using(crate::proofs::Laid::not_laid, crate::proofs::Laid::laid))]
fn lay_checked(alloc: Global, below: &[Text], tower: &Tower) -> Result<Kernel<Linked>, CommandStop>
    requires tower { IsTowerOf tower.now.levels.base tower.now.levels.uppers tower.now.client }
    requires many { length tower.now.levels.uppers + 1 ≡ length below.now }
    ensures lays { Lays (kept_tower below.now tower.now) result }
    ensures quiet { IsQuiet result }
    ensures refuses { RefusesAs (IsKeptRefusal below.now) result }
{
    breach_level_law();
    match lay_tower(
        Kernel::new()?,
        alloc,
        &tower.levels.base,
        &tower.levels.uppers,
        &tower.client,
    ) {
        Ok(kernel) => Ok(kernel),
        Err(fault) => Err(stop_of(alloc, below, &fault)),
    }
}

// The kernel of a tower of these bytes, or what is first in the way of it.
#[tactic(auto, using(crate::proofs::Laid::not_checked, crate::proofs::Laid::then_laid, crate::proofs::Refusing::checked_refused, crate::proofs::Refusing::laid_refused))]
fn link_bytes(
    alloc: Global,
    client: &Text,
    below: &[Text],
    client_bytes: &List<u8>,
    images: &[List<u8>],
) -> Result<Kernel<Linked>, CommandStop>
    requires some { 1 ≤ length below.now }
    requires few { length below.now ≤ 8 }
    requires long { length images.now ≡ length below.now }
    ensures lays { Lays (laid_of client.now below.now client_bytes.now images.now) result }
    ensures quiet { IsQuiet result }
    ensures refuses { RefusesAs (IsTowerRefusal client.now below.now) result }
{
    let tower = checked_tower(alloc, client, below, client_bytes, images)?;
    lay_checked(alloc, below, &tower)
}

/// The kernel of the client of a tower under one name and of the levels below it under others, from the lowest up, or what is
/// first in the way of it: all images are got, all are read, the rules of the levels are looked at and then the client's, and
/// then each level, and last the client, is compared with the levels below it.
#[tactic(auto, using(crate::proofs::Laid::client_missing, crate::proofs::Laid::level_missing, crate::proofs::Laid::all_laid, crate::proofs::Failing::client_fails, crate::proofs::Failing::levels_fail, crate::proofs::Failing::laying_fails, crate::proofs::Refusing::client_absent, crate::proofs::Refusing::level_absent))]
pub fn link_tower<S: Store>(
    alloc: Global,
    client: &Text,
    below: &[Text],
    store: &mut S,
) -> Result<Kernel<Linked>, CommandStop>
    requires some { 1 ≤ length below.now }
    requires few { length below.now ≤ 8 }
    ensures answer { LaysTold (S.files store.old) client.now below.now result }
    ensures files { S.files store.new ≡ S.files store.old }
    ensures later { S.faults store.old ≤ S.faults store.new }
    ensures cause { HasCause (FailsGetting (S.files store.old) (client.now ∷ below.now)) (S.faults store.old) (S.faults store.new) result }
    ensures quiet { S.calm store.old → IsQuiet result }
    ensures refuses { RefusesAs (IsTowerRefusal client.now below.now) result }
{
    let client_bytes = fetch(alloc, client, store)?;
    let images = fetch_all(alloc, below, store)?;
    link_bytes(alloc, client, below, &client_bytes, images.as_slice())
}
