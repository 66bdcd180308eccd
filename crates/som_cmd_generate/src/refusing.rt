//! Makes the line that tells which step of the generator refuses.

ghost use Rattle.som_cmd_generate.specs.GenerateAnswer.{unmade_told};
ghost use Rattle.som_cmd_generate.specs.Stopping.{StopsFor};
ghost use Rattle.som_generator.specs.declared.fault.Unmade.TheVariants as unmade_of;
ghost use Rattle.som_cmd_steps.specs.Lines.{or_dash};
ghost use Rattle.std.specs.Prelude.{IfOk, ◌≡◌};

use som_cmd_sources::refuse_texts;
use som_cmd_steps::{CommandStop, Refusal, refuse_incompatible};
use som_generator::{MakeFault, NotKept, Unmade};
use som_model::{NoMemory, Text};
use std::alloc::Global;

// A name, or a dash where it doesn't apply.
fn or_dash(name: &Option<Text>) -> &[u8]
    ensures { result.now ≡ or_dash name.now }
{
    match name {
        Some(name) => name.as_slice(),
        None => b"-",
    }
}

// The refusal that tells what the second release doesn't keep.
fn refuse_not_kept(alloc: Global, lost: &NotKept) -> Result<Refusal, NoMemory>
    ensures { IfOk result (λ r. r ≡ unmade_told (unmade_of.NotKept lost.now)) }
{
    let image = Text::from_slice(alloc, b"2")?;
    refuse_incompatible(
        alloc,
        &image,
        lost.rule,
        &lost.class,
        or_dash(&lost.name),
        lost.place,
    )
}

// The refusal of the first step that refuses.
fn refuse_unmade(alloc: Global, unmade: &Unmade) -> Result<Refusal, NoMemory>
    ensures { IfOk result (λ r. r ≡ unmade_told unmade.now) }
{
    match unmade {
        Unmade::Texts(fault) => refuse_texts(alloc, fault),
        Unmade::NotKept(lost) => refuse_not_kept(alloc, lost),
    }
}

/// What stops the command where nothing comes of the texts.
pub fn stop_of(alloc: Global, fault: &MakeFault) -> CommandStop
    ensures { StopsFor fault.now result }
{
    match fault {
        MakeFault::Unmade(unmade) => match refuse_unmade(alloc, unmade) {
            Ok(refusal) => CommandStop::Refused(refusal),
            Err(_) => CommandStop::NoMemory,
        },
        MakeFault::NoMemory => CommandStop::NoMemory,
    }
}
