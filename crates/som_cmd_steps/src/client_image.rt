//! The step that decodes a client image and checks its rules, or refuses it.

ghost use Rattle.som_cliimage.specs.Limits.{IsWithinLimits};
ghost use Rattle.som_image_fields.specs.Fields.{Gives};
ghost use Rattle.som_model.specs.Conforming.{ProgramOk};
ghost use Rattle.som_cmd_steps.specs.Cause.{IsQuiet};
ghost use Rattle.som_cmd_steps.specs.ImageSteps.{client_in, program_in, program_rules_kept, sound_program};
ghost use Rattle.som_cmd_steps.specs.Steps.{Follows};
ghost use Rattle.std.specs.Prelude.{IfOk};

use crate::image_lines::{refuse_broken, refuse_bytes};
use crate::stop::CommandStop;
use som_cliimage::decode;
use som_image_fields::ImageFault;
use som_model::{ClientProgram, List, Text};
use som_verify::program_ok;
use som_verify_classes::VerifyFault;
use std::alloc::Global;

// The program of a client image, or the first fault of the bytes.
#[tactic(auto, using(crate::proofs::ByteLaws::client_gives))]
fn client_in(alloc: Global, bytes: &List<u8>) -> Result<ClientProgram, ImageFault>
    ensures gives { Gives result (client_in bytes.now) }
    ensures within { IfOk result IsWithinLimits }
{
    let _all = bytes.as_bytes();
    decode(alloc, bytes)
}

/// The program of a client image, or the refusal that tells the first fault of the bytes.
pub fn read_program(
    alloc: Global,
    name: &Text,
    bytes: &List<u8>,
) -> Result<ClientProgram, CommandStop>
    ensures follows { Follows result (program_in name.now bytes.now) }
    ensures within { IfOk result IsWithinLimits }
    ensures quiet { IsQuiet result }
{
    match client_in(alloc, bytes) {
        Ok(program) => Ok(program),
        Err(ImageFault::NoMemory) => Err(CommandStop::NoMemory),
        Err(fault) => Err(CommandStop::Refused(refuse_bytes(alloc, name, fault)?)),
    }
}

/// Goes on where a client program breaks no rule; else the refusal tells the first that it breaks.
pub fn look_at_program(
    alloc: Global,
    name: &Text,
    program: &ClientProgram,
) -> Result<(), CommandStop>
    ensures follows { Follows result (program_rules_kept name.now program.now) }
    ensures conforms { IfOk result (λ _. ProgramOk program.now) }
    ensures quiet { IsQuiet result }
{
    match program_ok(alloc, program) {
        Ok(()) => Ok(()),
        Err(VerifyFault::Rule(rule)) => Err(CommandStop::Refused(refuse_broken(
            alloc, name, &rule,
        )?)),
        Err(VerifyFault::NoMemory) => Err(CommandStop::NoMemory),
    }
}

/// The program of a client image that breaks no rule.
#[tactic(auto, using(crate::proofs::ImageLaws::program_unread, crate::proofs::ImageLaws::program_broken, crate::proofs::ImageLaws::program_sound))]
pub fn sound_program(
    alloc: Global,
    name: &Text,
    bytes: &List<u8>,
) -> Result<ClientProgram, CommandStop>
    ensures follows { Follows result (sound_program name.now bytes.now) }
    ensures quiet { IsQuiet result }
{
    let program = read_program(alloc, name, bytes)?;
    look_at_program(alloc, name, &program)?;
    Ok(program)
}
