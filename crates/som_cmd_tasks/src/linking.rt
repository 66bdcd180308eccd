//! The steps of clients before their first turn: their images and that of the library are got, read, looked at and linked.

ghost use Rattle.som_cmd_steps.specs.Cause.{HasCause, IsQuiet};
ghost use Rattle.som_cmd_steps.specs.Getting.{FailsGetting};
ghost use Rattle.som_cmd_steps.specs.Refusing.{RefusesAs};
ghost use Rattle.som_cmd_link.specs.Kernels.{IsKernelOf};
ghost use Rattle.som_cmd_tasks.specs.Groups.{AllLoad, CanLoad, group_of};
ghost use Rattle.som_cmd_tasks.specs.Kernels.{AreKernelsOf, LinksAll, LinksAllTold};
ghost use Rattle.som_cmd_tasks.specs.Refusals.{IsTasksRefusal};
ghost use Rattle.std.specs.Prelude.{IfOk, length, ◌∷◌, ◌≡◌, ◌≤◌};

use crate::checking::checked_group;
use som_class_kernel::classes_of_pair;
use som_classmgr::{Kernel, Linked};
use som_cmd_steps::{CommandStop, fault_law, fetch, fetch_all};
use som_io::Store;
use som_model::{ClientProgram, List, NoMemory, Release, Text};
use std::alloc::Global;

// The kernel of a client program and a release that can be loaded together.
fn link_program(
    alloc: Global,
    release: &Release,
    program: &ClientProgram,
) -> Result<Kernel<Linked>, NoMemory>
    requires { CanLoad release.now program.now }
    ensures { IfOk result (IsKernelOf (record { program = program.now; release = release.now })) }
{
    let classes = classes_of_pair(alloc, release, program)?;
    Kernel::new()?.lay(alloc, &classes, &program.main)
}

// The kernel of each client program, in their order.
fn link_programs(
    alloc: Global,
    release: &Release,
    programs: &[ClientProgram],
) -> Result<List<Kernel<Linked>>, NoMemory>
    requires { AllLoad release.now programs.now }
    ensures kernels { IfOk result (AreKernelsOf release.now programs.now) }
    ensures long { IfOk result (λ kernels. length kernels ≡ length programs.now) }
{
    let mut kernels = List::new(alloc);
    for program in programs {
        kernels.push(link_program(alloc, release, program)?)?;
    }
    Ok(kernels)
}

// The kernels of the clients of these bytes, or what is first in the way of linking them.
#[tactic(auto, using(crate::proofs::Laying::not_checked, crate::proofs::Laying::all_linked))]
fn link_bytes(
    alloc: Global,
    library: &Text,
    clients: &[Text],
    library_bytes: &List<u8>,
    images: &[List<u8>],
) -> Result<List<Kernel<Linked>>, CommandStop>
    requires { length images.now ≡ length clients.now }
    ensures links { LinksAll (group_of library.now clients.now library_bytes.now images.now) result }
    ensures long { IfOk result (λ kernels. length kernels ≡ length clients.now) }
    ensures quiet { IsQuiet result }
{
    let group = checked_group(alloc, library, clients, library_bytes, images)?;
    Ok(link_programs(alloc, &group.release, group.programs.as_slice())?)
}

/// The kernels of the clients under some names on the library under another, in the order of the clients, or what is first in
/// the way of linking them: all images are got, all are read, the library's rules are looked at and then each client's, and
/// then each client is compared with the library.
#[tactic(auto, using(crate::proofs::Laying::library_missing, crate::proofs::Laying::clients_missing, crate::proofs::Laying::then_linked, crate::proofs::Failing::library_fails, crate::proofs::Failing::clients_fail, crate::proofs::Failing::linking_fails, crate::proofs::Refusing::library_absent, crate::proofs::Refusing::clients_absent))]
pub(crate) fn link_clients<S: Store>(
    alloc: Global,
    library: &Text,
    clients: &[Text],
    store: &mut S,
) -> Result<List<Kernel<Linked>>, CommandStop>
    ensures answer { LinksAllTold (S.files store.old) library.now clients.now result }
    ensures long { IfOk result (λ kernels. length kernels ≡ length clients.now) }
    ensures files { S.files store.new ≡ S.files store.old }
    ensures later { S.faults store.old ≤ S.faults store.new }
    ensures cause { HasCause (FailsGetting (S.files store.old) (library.now ∷ clients.now)) (S.faults store.old) (S.faults store.new) result }
    ensures quiet { S.calm store.old → IsQuiet result }
    ensures refuses { RefusesAs (IsTasksRefusal library.now clients.now) result }
{
    fault_law();
    let library_bytes = fetch(alloc, library, store)?;
    let images = fetch_all(alloc, clients, store)?;
    link_bytes(alloc, library, clients, &library_bytes, images.as_slice())
}
