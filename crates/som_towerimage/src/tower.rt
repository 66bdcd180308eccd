//! The decoder and the encoder of tower images, between bytes and a level.

ghost use Rattle.som_cliimage.specs.Limits.{IsWithinLimits};
ghost use Rattle.som_cliimage.specs.Programs.{ProgramNamesDiffer};
ghost use Rattle.som_image_fields.specs.Fields.{Gives};
ghost use Rattle.som_model.specs.Conforming.{ProgramOk};
ghost use Rattle.som_model.specs.Images.{client_image};
ghost use Rattle.som_towerimage.specs.Reading.{level_at, level_form};
ghost use Rattle.som_towerimage.specs.Spelling.{FitsTower, SpellsLevel, tower_image};
ghost use Rattle.std.specs.Prelude.{◌≡◌, Some, Ok, IfOk};

use crate::head::{MAGIC, VERSION, classes_of, new_tower, read_below, read_flag, read_sizes};
use crate::level::Level;
use som_cliimage::{ClientForm, decode_from, encode};
use som_image_classes::read_head;
use som_image_fields::{EncodeFault, ImageFault};
use som_model::{ClientProgram, List, NoMemory};
use std::alloc::Global;

// What is asked of the client image of a level.
fn level_form(classes: u32, client: bool) -> ClientForm
    ensures { result ≡ level_form classes client }
{
    ClientForm {
        base_classes: Some(classes),
        statements: if client { None } else { Some(0) },
    }
}

#[tactic(auto, unfolding(crate::specs::Reading::level_at))]
fn read_level(alloc: Global, bytes: &List<u8>) -> Result<Level, ImageFault>
    ensures { Gives result (level_at bytes.now) }
{
    let version = read_head(bytes, 0, MAGIC, VERSION)?;
    let below = read_below(bytes, version.next)?;
    let client = read_flag(bytes, below.next, below.value)?;
    let sizes = read_sizes(alloc, bytes, client.next, below.value)?;
    let form = level_form(classes_of(&sizes.value), client.value);
    let program = decode_from(alloc, bytes, sizes.next, &form)?;
    Ok(Level {
        sizes: sizes.value,
        program,
        client: client.value,
    })
}

/// Reads a tower image: the one level that the bytes spell, and else the first fault, whose place counts from the first byte
/// of the tower image, in the client image too. An image in which a name stands twice is read too, since rules on names are
/// asked of what was read.
pub fn decode_level(alloc: Global, bytes: &List<u8>) -> Result<Level, ImageFault>
    ensures found { IfOk result (λ l. ProgramNamesDiffer l.program → tower_image l ≡ Some bytes.now) }
    ensures spelled { IfOk result (λ l. SpellsLevel l bytes.now) }
    ensures fits { IfOk result FitsTower }
    ensures within { IfOk result (λ l. IsWithinLimits l.program) }
    ensures only { (l : _) → FitsTower l → tower_image l ≡ Some bytes.now → Gives result (Ok l) }
    ensures only_spelled { (l : _) → SpellsLevel l bytes.now → Gives result (Ok l) }
    ensures exact { Gives result (level_at bytes.now) }
{
    let _all = bytes.as_bytes();
    read_level(alloc, bytes)
}

fn encode_program(alloc: Global, program: &ClientProgram) -> Result<List<u8>, NoMemory>
    requires conforms { ProgramOk program.now }
    requires within { IsWithinLimits program.now }
    ensures { IfOk result (λ bytes. client_image program.now ≡ Some bytes) }
{
    match encode(alloc, program) {
        Ok(image) => Ok(image),
        Err(EncodeFault::NoMemory) => Err(NoMemory),
    }
}

/// Writes the tower image of a level. `decode_level` reads it back: it answers the level, unless memory runs out.
pub fn encode_level(alloc: Global, level: &Level) -> Result<List<u8>, NoMemory>
    requires conforms { ProgramOk level.now.program }
    requires within { IsWithinLimits level.now.program }
    requires fits { FitsTower level.now }
    ensures image { IfOk result (λ bytes. tower_image level.now ≡ Some bytes) }
    ensures spelled { IfOk result (λ bytes. SpellsLevel level.now bytes) }
    ensures read_back { IfOk result (λ bytes. level_at bytes ≡ Ok level.now) }
{
    let mut image = new_tower(alloc, &level.sizes, level.client)?;
    let program = encode_program(alloc, &level.program)?;
    image.extend_from_slice(program.as_slice())?;
    Ok(image)
}
