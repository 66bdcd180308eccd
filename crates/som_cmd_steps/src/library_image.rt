//! The step that decodes a library image and checks its rules, or refuses it.

ghost use Rattle.som_image_fields.specs.Fields.{Gives};
ghost use Rattle.som_libimage.specs.Limits.{IsWithinLimits};
ghost use Rattle.som_model.specs.Conforming.{ReleaseOk};
ghost use Rattle.som_cmd_steps.specs.Cause.{IsQuiet};
ghost use Rattle.som_cmd_steps.specs.ImageSteps.{library_in, release_in, rules_kept, sound_release};
ghost use Rattle.som_cmd_steps.specs.Steps.{Follows};
ghost use Rattle.std.specs.Prelude.{IfOk};

use crate::image_lines::{refuse_broken, refuse_bytes};
use crate::stop::CommandStop;
use som_image_fields::ImageFault;
use som_libimage::decode;
use som_model::{List, NoMemory, Release, Text};
use som_verify::release_ok;
use som_verify_classes::VerifyFault;
use std::alloc::Global;

// The release of a library image, or the first fault of the bytes.
#[tactic(auto, using(crate::proofs::ByteLaws::library_gives))]
fn library_in(alloc: Global, bytes: &List<u8>) -> Result<Release, ImageFault>
    ensures gives { Gives result (library_in bytes.now) }
    ensures within { IfOk result IsWithinLimits }
{
    let _all = bytes.as_bytes();
    decode(alloc, bytes)
}

/// The release of a library image, or the refusal that tells the first fault of the bytes.
pub fn read_release(alloc: Global, name: &Text, bytes: &List<u8>) -> Result<Release, CommandStop>
    ensures follows { Follows result (release_in name.now bytes.now) }
    ensures within { IfOk result IsWithinLimits }
    ensures quiet { IsQuiet result }
{
    match library_in(alloc, bytes) {
        Ok(release) => Ok(release),
        Err(ImageFault::NoMemory) => Err(CommandStop::NoMemory),
        Err(fault) => Err(CommandStop::Refused(refuse_bytes(alloc, name, fault)?)),
    }
}

/// Goes on where a release breaks no rule; else the refusal tells the first that it breaks.
pub fn look_at_rules(alloc: Global, name: &Text, release: &Release) -> Result<(), CommandStop>
    ensures follows { Follows result (rules_kept name.now release.now) }
    ensures conforms { IfOk result (λ _. ReleaseOk release.now) }
    ensures quiet { IsQuiet result }
{
    match release_ok(alloc, release) {
        Ok(()) => Ok(()),
        Err(VerifyFault::Rule(rule)) => {
            Err(CommandStop::Refused(refuse_broken(alloc, name, &rule)?))
        }
        Err(VerifyFault::NoMemory) => Err(CommandStop::NoMemory),
    }
}

/// The release of a library image that breaks no rule.
#[tactic(auto, using(crate::proofs::ImageLaws::unread_first, crate::proofs::ImageLaws::broken_first, crate::proofs::ImageLaws::is_sound))]
pub fn sound_release(alloc: Global, name: &Text, bytes: &List<u8>) -> Result<Release, CommandStop>
    ensures follows { Follows result (sound_release name.now bytes.now) }
    ensures conforms { IfOk result ReleaseOk }
    ensures within { IfOk result IsWithinLimits }
    ensures quiet { IsQuiet result }
{
    let release = read_release(alloc, name, bytes)?;
    look_at_rules(alloc, name, &release)?;
    Ok(release)
}
