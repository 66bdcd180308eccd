//! Decodes and encodes the head of an image: the bytes that tell its kind, and its version.

ghost use Rattle.som_image_classes.specs.ReadClasses.{head_at, magic_at};
ghost use Rattle.som_image_classes.specs.SpelledClasses.{head};
ghost use Rattle.std.specs.Prelude.{◌≡◌, ◌≤◌, length, IfOk};

use som_image_fields::{ImageFault, Read, read_u8};
use som_model::{List, NoMemory};
use std::alloc::Global;

fn read_magic(bytes: &List<u8>, place: usize, magic: &[u8]) -> Result<usize, ImageFault>
    requires { place ≤ length bytes.now }
    ensures exact { result ≡ magic_at magic.now bytes.now place }
    ensures next { IfOk result (λ next. next ≤ length bytes.now) }
{
    let all = bytes.as_slice();
    let (_, rest) = all.split_at(place);
    if rest.starts_with(magic) {
        Ok(place + magic.len())
    } else if magic.starts_with(rest) {
        Err(ImageFault::Cut { offset: all.len() })
    } else {
        Err(ImageFault::Magic { offset: place })
    }
}

/// The version of an image that begins at a place with these bytes, and the place after it. The versions from 1 to the newest
/// are taken.
#[tactic(auto, unfolding(crate::specs::ReadClasses::head_at))]
pub fn read_head(
    bytes: &List<u8>,
    place: usize,
    magic: &[u8],
    newest: u8,
) -> Result<Read<u8>, ImageFault>
    requires { place ≤ length bytes.now }
    ensures exact { result ≡ head_at magic.now newest bytes.now place }
    ensures next { IfOk result (λ version. version.next ≤ length bytes.now) }
{
    let start = read_magic(bytes, place, magic)?;
    let version = read_u8(bytes, start)?;
    if 1 <= version.value && version.value <= newest {
        Ok(version)
    } else {
        Err(ImageFault::Version { offset: start })
    }
}

/// The beginning of an image: these bytes, and a version.
pub fn new_image(alloc: Global, magic: &[u8], version: u8) -> Result<List<u8>, NoMemory>
    ensures { IfOk result (λ image. image ≡ head magic.now version) }
{
    let mut image = List::from_slice(alloc, magic)?;
    image.push(version)?;
    Ok(image)
}
