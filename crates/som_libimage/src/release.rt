//! Decodes and encodes the sections of a library image: head, faces, parts and selects.

ghost use Rattle.som_libimage.specs.Libraries.{library_at};
ghost use Rattle.som_libimage.specs.NamedReading.{named_bodies_at, release_at};
ghost use Rattle.som_libimage.specs.Spelling.{FitsRelease, library};
ghost use Rattle.som_image_classes.specs.SpelledClasses.{FitsFaces};
ghost use Rattle.som_image_fields.specs.Fields.{Gives};
ghost use Rattle.std.specs.Prelude.{◌≡◌, ◌≤◌, length, IfOk};

use crate::wire::WireRelease;
use som_image_classes::{
    KERNEL_CLASSES, name_classes, new_image, ranges_of, read_faces, read_head, read_parts,
    read_section, version_with, with_faces, with_parts, with_section,
};
use som_image_decode::Directory;
use som_image_fields::{ImageFault, WireFace, write_u16};
use som_model::{List, NoMemory, Release};
use std::alloc::Global;

const MAGIC: &[u8] = b"SOML";

const NEWEST_VERSION: u8 = 2;

/// Reads a whole library image to the release that it stands for.
pub(crate) fn read_release(alloc: Global, bytes: &List<u8>) -> Result<Release, ImageFault>
    ensures { Gives result (library_at bytes.now) }
{
    read_named(alloc, bytes)
}

#[tactic(auto, unfolding(crate::specs::NamedReading::release_at))]
fn read_named(alloc: Global, bytes: &List<u8>) -> Result<Release, ImageFault>
    ensures { Gives result (release_at bytes.now) }
{
    let version = read_head(bytes, 0, MAGIC, NEWEST_VERSION)?;
    let faces = read_faces(alloc, bytes, version.next)?;
    read_bodies(alloc, bytes, faces.next, version.value, &faces.value)
}

// No part is kept with numbers: each is named as it is read.
#[tactic(auto, unfolding(crate::specs::NamedReading::named_bodies_at))]
fn read_bodies(
    alloc: Global,
    bytes: &List<u8>,
    place: usize,
    version: u8,
    faces: &List<WireFace>,
) -> Result<Release, ImageFault>
    requires place { place ≤ length bytes.now }
    requires faces { FitsFaces faces.now }
    ensures { Gives result (named_bodies_at version faces.now bytes.now place) }
{
    let ranges = ranges_of(alloc, faces)?;
    let directory = Directory::of_library(alloc, faces)?;
    let parts = read_parts(alloc, bytes, place, &directory, &ranges, faces)?;
    let selects = read_section(alloc, bytes, parts.next, version, &ranges, KERNEL_CLASSES)?;
    if selects.next < bytes.len() {
        return Err(ImageFault::Trailing {
            offset: selects.next,
        });
    }
    Ok(Release {
        classes: name_classes(
            alloc,
            &directory,
            KERNEL_CLASSES,
            faces,
            parts.value,
            &selects.value,
        )?,
    })
}

/// The library image of a release with numbers.
pub(crate) fn write_release(alloc: Global, wire: &WireRelease) -> Result<List<u8>, NoMemory>
    requires { FitsRelease wire.now }
    ensures { IfOk result (λ image. image ≡ library wire.now) }
{
    let mut image = new_image(alloc, MAGIC, version_with(&wire.selects))?;
    write_u16(&mut image, wire.faces.len() as u16)?;
    let image = with_faces(alloc, image, &wire.faces)?;
    let image = with_parts(alloc, image, &wire.parts)?;
    with_section(alloc, image, &wire.selects)
}
