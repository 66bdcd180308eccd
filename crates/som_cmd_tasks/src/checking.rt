//! The steps that read the images of a library and of clients, and look at the rules of each.

ghost use Rattle.som_cliimage.specs.Limits as clients_within;
ghost use Rattle.som_cmd_steps.specs.Cause.{IsQuiet};
ghost use Rattle.som_cmd_steps.specs.Steps.{Follows};
ghost use Rattle.som_cmd_tasks.specs.Groups.{AllLoad, group_of, programs_in, programs_kept};
ghost use Rattle.som_model.specs.Conforming.{ProgramOk};
ghost use Rattle.std.specs.Prelude.{All, IfOk, length, ◌≡◌};

use crate::fitting::look_at_bases;
use crate::group::Group;
use som_cmd_steps::{CommandStop, look_at_program, look_at_rules, read_program, read_release};
use som_model::{ClientProgram, List, Text};
use std::alloc::Global;

// The program of each client image.
fn read_programs(
    alloc: Global,
    names: &[Text],
    images: &[List<u8>],
) -> Result<List<ClientProgram>, CommandStop>
    requires { length images.now ≡ length names.now }
    ensures follows { Follows result (programs_in names.now images.now) }
    ensures long { IfOk result (λ ps. length ps ≡ length names.now) }
    ensures within { IfOk result (λ ps. All clients_within.IsWithinLimits ps) }
    ensures quiet { IsQuiet result }
{
    let mut programs = List::new(alloc);
    for place in 0..names.len() {
        programs.push(read_program(alloc, &names[place], &images[place])?)?;
    }
    Ok(programs)
}

// Goes on where no client program breaks a rule.
#[tactic(auto, using(crate::proofs::Reading::programs_stop))]
fn look_at_programs(
    alloc: Global,
    names: &[Text],
    programs: &[ClientProgram],
) -> Result<(), CommandStop>
    requires { length programs.now ≡ length names.now }
    ensures follows { Follows result (programs_kept names.now programs.now) }
    ensures conform { IfOk result (λ _. All ProgramOk programs.now) }
    ensures quiet { IsQuiet result }
{
    for place in 0..names.len() {
        look_at_program(alloc, &names[place], &programs[place])?;
    }
    Ok(())
}

/// The release of a library's bytes and the programs of those of clients, where all can be read, none breaks a rule, and the
/// release keeps all that each program was compiled against.
#[tactic(auto, using(crate::proofs::Reading::library_unread, crate::proofs::Reading::client_unread, crate::proofs::Reading::library_broken, crate::proofs::Reading::client_broken, crate::proofs::Reading::not_fitted, crate::proofs::Reading::all_fitted, crate::proofs::Reading::all_load))]
pub(crate) fn checked_group(
    alloc: Global,
    library: &Text,
    clients: &[Text],
    library_bytes: &List<u8>,
    images: &[List<u8>],
) -> Result<Group, CommandStop>
    requires { length images.now ≡ length clients.now }
    ensures follows { Follows result (group_of library.now clients.now library_bytes.now images.now) }
    ensures long { IfOk result (λ group. length group.programs ≡ length clients.now) }
    ensures loads { IfOk result (λ group. AllLoad group.release group.programs) }
    ensures quiet { IsQuiet result }
{
    let release = read_release(alloc, library, library_bytes)?;
    let programs = read_programs(alloc, clients, images)?;
    look_at_rules(alloc, library, &release)?;
    look_at_programs(alloc, clients, programs.as_slice())?;
    look_at_bases(alloc, library, &release, programs.as_slice())?;
    Ok(Group { release, programs })
}
