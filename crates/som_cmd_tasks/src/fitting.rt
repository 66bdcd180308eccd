//! The step that compares what clients were compiled against with a library.

ghost use Rattle.som_cliimage.specs.Limits as clients_within;
ghost use Rattle.som_cmd_steps.specs.Cause.{IsQuiet};
ghost use Rattle.som_cmd_steps.specs.Steps.{Follows};
ghost use Rattle.som_cmd_tasks.specs.Groups.{AllKept, each_kept, kept_or};
ghost use Rattle.som_compat.specs.Conditions.{Conforms};
ghost use Rattle.som_libimage.specs.Limits as libraries_within;
ghost use Rattle.som_model.specs.Class.{interface_of};
ghost use Rattle.som_model.specs.Compatible.{first_break};
ghost use Rattle.som_model.specs.Conforming.{ProgramOk, ReleaseOk};
ghost use Rattle.std.specs.Prelude.{All, IfOk, None, ◌≡◌};

use som_cmd_steps::{CommandStop, refuse_breach};
use som_compat::compatible;
use som_model::{ClientProgram, Interface, Release, Text};
use std::alloc::Global;

// Goes on where a library keeps all that a client was compiled against; else the refusal tells the first thing that it doesn't keep.
#[tactic(auto, using(crate::proofs::Comparing::keeps_base, crate::proofs::Comparing::breaks_base))]
fn look_at_base(
    alloc: Global,
    library: &Text,
    shown: &Interface,
    program: &ClientProgram,
) -> Result<(), CommandStop>
    requires library { Conforms shown.now }
    requires client { Conforms program.now.base }
    ensures follows { Follows result (kept_or library.now (first_break program.now.base shown.now)) }
    ensures kept { IfOk result (λ _. first_break program.now.base shown.now ≡ None) }
    ensures quiet { IsQuiet result }
{
    match compatible(&program.base, shown) {
        Ok(()) => Ok(()),
        Err(breach) => Err(CommandStop::Refused(refuse_breach(alloc, library, &breach)?)),
    }
}

// Goes on where a library with this interface keeps all that each client was compiled against.
fn look_at_each(
    alloc: Global,
    library: &Text,
    shown: &Interface,
    programs: &[ClientProgram],
) -> Result<(), CommandStop>
    requires library { Conforms shown.now }
    requires clients { All (λ p. Conforms p.base) programs.now }
    ensures follows { Follows result (each_kept library.now shown.now programs.now) }
    ensures kept { IfOk result (λ _. AllKept shown.now programs.now) }
    ensures quiet { IsQuiet result }
{
    for program in programs {
        look_at_base(alloc, library, shown, program)?;
    }
    Ok(())
}

/// Goes on where a library keeps all that each client was compiled against; else the refusal tells the first thing that it
/// doesn't keep, of the first client of which it doesn't keep something.
#[tactic(auto, using(crate::proofs::Comparing::shown_conforms, crate::proofs::Comparing::bases_conform, crate::proofs::Comparing::shown_follows, crate::proofs::Comparing::shown_keeps))]
pub(crate) fn look_at_bases(
    alloc: Global,
    library: &Text,
    release: &Release,
    programs: &[ClientProgram],
) -> Result<(), CommandStop>
    requires release { ReleaseOk release.now }
    requires release_within { libraries_within.IsWithinLimits release.now }
    requires programs { All ProgramOk programs.now }
    requires programs_within { All clients_within.IsWithinLimits programs.now }
    ensures follows { Follows result (each_kept library.now (interface_of release.now) programs.now) }
    ensures kept { IfOk result (λ _. AllKept (interface_of release.now) programs.now) }
    ensures quiet { IsQuiet result }
{
    let shown = release.interface(alloc)?;
    look_at_each(alloc, library, &shown, programs)
}
