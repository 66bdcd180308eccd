//! The decoder and the encoder of client images, between bytes and a program with names.

ghost use Rattle.som_cliimage.specs.Forms.{HasForm};
ghost use Rattle.som_cliimage.specs.Programs.{ProgramNamesDiffer, SpellsProgram, client_at, client_from};
ghost use Rattle.som_cliimage.specs.Limits.{IsWithinLimits};
ghost use Rattle.som_model.specs.Conforming.{ProgramOk};
ghost use Rattle.som_model.specs.Images.{client_image};
ghost use Rattle.som_image_fields.specs.Fields.{Gives};
ghost use Rattle.std.specs.Prelude.{◌≡◌, ◌≤◌, drop, length, Some, Ok, IfOk};

use crate::form::{ANY_FORM, ClientForm};
use crate::numbered::number_program;
use crate::program::{read_program, write_program};
use som_image_fields::{EncodeFault, ImageFault};
use som_model::{ClientProgram, List};
use std::alloc::Global;

/// Reads a client image: the one program that the bytes spell, and else the first fault. An image in which a name stands twice
/// is read too, since rules on names are asked of what was read; such a program has no image, or another one.
pub fn decode(alloc: Global, bytes: &List<u8>) -> Result<ClientProgram, ImageFault>
    ensures found { IfOk result (λ p. ProgramNamesDiffer p → client_image p ≡ Some bytes.now) }
    ensures spelled { IfOk result (λ p. SpellsProgram p bytes.now) }
    ensures within { IfOk result IsWithinLimits }
    ensures only { (p : _) → client_image p ≡ Some bytes.now → Gives result (Ok p) }
    ensures only_spelled { (p : _) → SpellsProgram p bytes.now → Gives result (Ok p) }
    ensures exact { Gives result (client_at bytes.now) }
{
    let _all = bytes.as_bytes();
    read_program(alloc, bytes, 0, &ANY_FORM)
}

/// Reads the client image that stands in bytes from a place to their end, as `decode` reads one that begins at the first byte.
/// The places of faults count from the first byte too. A number other than the one that the form asks for is refused where it
/// stands.
pub fn decode_from(
    alloc: Global,
    bytes: &List<u8>,
    place: usize,
    form: &ClientForm,
) -> Result<ClientProgram, ImageFault>
    requires { place ≤ length bytes.now }
    ensures spelled { IfOk result (λ p. SpellsProgram p (drop place bytes.now) ×
        HasForm form.now (length p.base.classes) (length p.main.statements)) }
    ensures only_spelled { (p : _) → SpellsProgram p (drop place bytes.now) →
        HasForm form.now (length p.base.classes) (length p.main.statements) → Gives result (Ok p) }
    ensures exact { Gives result (client_from form.now bytes.now place) }
{
    let _all = bytes.as_bytes();
    read_program(alloc, bytes, place, form)
}

/// Writes the client image of a program. `decode` reads it back: it answers the program, unless memory runs out.
pub fn encode(alloc: Global, program: &ClientProgram) -> Result<List<u8>, EncodeFault>
    requires conforms { ProgramOk program.now }
    requires within { IsWithinLimits program.now }
    ensures image { IfOk result (λ bytes. client_image program.now ≡ Some bytes) }
    ensures read_back { IfOk result (λ bytes. client_at bytes ≡ Ok program.now) }
{
    let wire = number_program(alloc, program)?;
    let image = write_program(alloc, &wire)?;
    Ok(image)
}
