//! The steps that decode a tower image and ask whether it stands at its place, or refuse it.

ghost use Rattle.som_cliimage.specs.Limits.{IsWithinLimits};
ghost use Rattle.som_cmd_levels.specs.LevelImages.{is_kind, level_in, level_read, placed_in, upper_in, upper_read};
ghost use Rattle.som_cmd_levels.specs.Levels.{IsLevelAt};
ghost use Rattle.som_cmd_steps.specs.Cause.{IsQuiet};
ghost use Rattle.som_cmd_steps.specs.Steps.{Follows};
ghost use Rattle.som_image_fields.specs.Fields.{Gives};
ghost use Rattle.som_towerimage.specs.Spelling.{FitsTower};
ghost use Rattle.std.specs.Prelude.{IfOk, IsTrue, false, ◌≡◌};

use som_cmd_steps::{CommandStop, refuse_bytes};
use som_image_fields::ImageFault;
use som_model::{List, Text};
use som_towerimage::{Level, decode_level};
use std::alloc::Global;

// The level of a tower image, or the first fault of the bytes.
#[tactic(auto, using(crate::proofs::Placing::level_gives))]
fn level_in(alloc: Global, bytes: &List<u8>) -> Result<Level, ImageFault>
    ensures gives { Gives result (level_in bytes.now) }
    ensures fits { IfOk result FitsTower }
    ensures within { IfOk result (λ l. IsWithinLimits l.program) }
{
    let _all = bytes.as_bytes();
    decode_level(alloc, bytes)
}

// Whether a level is a client, or a library, as it is asked.
fn is_kind(level: &Level, client: bool) -> bool
    ensures exact { result ≡ is_kind client level.now }
    ensures kind { IsTrue result → level.now.client ≡ client }
{
    if client { level.client } else { !level.client }
}

// The library of a tower image, or the first fault.
fn upper_in(alloc: Global, bytes: &List<u8>) -> Result<Level, ImageFault>
    ensures gives { Gives result (upper_in bytes.now) }
    ensures fits { IfOk result FitsTower }
    ensures within { IfOk result (λ l. IsWithinLimits l.program) }
    ensures library { IfOk result (λ l. l.client ≡ false) }
{
    let level = level_in(alloc, bytes)?;
    if level.client {
        return Err(ImageFault::Tag { offset: 6 });
    }
    Ok(level)
}

// The level of a tower image that stands at its place, or the first fault.
fn placed_in(
    alloc: Global,
    bytes: &List<u8>,
    below: usize,
    client: bool,
) -> Result<Level, ImageFault>
    ensures gives { Gives result (placed_in below client bytes.now) }
    ensures at { IfOk result (IsLevelAt below client) }
{
    let level = level_in(alloc, bytes)?;
    if level.sizes.len() != below {
        return Err(ImageFault::Number { offset: 5 });
    }
    if !is_kind(&level, client) {
        return Err(ImageFault::Tag { offset: 6 });
    }
    Ok(level)
}

/// The library of a tower image, above however many levels, or the refusal that tells the first fault.
pub fn read_upper(alloc: Global, name: &Text, bytes: &List<u8>) -> Result<Level, CommandStop>
    ensures follows { Follows result (upper_read name.now bytes.now) }
    ensures fits { IfOk result FitsTower }
    ensures within { IfOk result (λ l. IsWithinLimits l.program) }
    ensures library { IfOk result (λ l. l.client ≡ false) }
    ensures quiet { IsQuiet result }
{
    match upper_in(alloc, bytes) {
        Ok(level) => Ok(level),
        Err(ImageFault::NoMemory) => Err(CommandStop::NoMemory),
        Err(fault) => Err(CommandStop::Refused(refuse_bytes(alloc, name, fault)?)),
    }
}

/// The level of a tower image, which is above so many others and is a client or a library, or the refusal that tells the first fault: that
/// of the bytes, or else that of the field by which it doesn't stand at its place.
pub fn read_level(
    alloc: Global,
    name: &Text,
    bytes: &List<u8>,
    below: usize,
    client: bool,
) -> Result<Level, CommandStop>
    ensures follows { Follows result (level_read below client name.now bytes.now) }
    ensures at { IfOk result (IsLevelAt below client) }
    ensures quiet { IsQuiet result }
{
    match placed_in(alloc, bytes, below, client) {
        Ok(level) => Ok(level),
        Err(ImageFault::NoMemory) => Err(CommandStop::NoMemory),
        Err(fault) => Err(CommandStop::Refused(refuse_bytes(alloc, name, fault)?)),
    }
}
