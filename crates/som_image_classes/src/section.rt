//! Decodes and encodes the selects section, which images have from version 2 on.

ghost use Rattle.som_image_classes.specs.NamedClasses.{AreSelectsOf};
ghost use Rattle.som_image_classes.specs.ReadClasses.{section_at};
ghost use Rattle.som_image_classes.specs.SpelledClasses.{FitsSomeSection, section, version_with};
ghost use Rattle.som_image_fields.specs.Fields.{Gives};
ghost use Rattle.std.specs.Prelude.{◌≡◌, ◌≤◌, ◌++◌, length, IfOk};

use som_image_fields::{ImageFault, Ranges, Read};
use som_model::{List, NoMemory};
use som_wire::{WireSelects, read_selects, write_selects};
use std::alloc::Global;

// The version of images without selects, and of those with some.
const PLAIN_VERSION: u8 = 1;

const SELECTS_VERSION: u8 = 2;

/// The version of an image with these selects.
pub fn version_with(selects: &List<WireSelects>) -> u8
    ensures { result ≡ version_with selects.now }
{
    if selects.is_empty() {
        PLAIN_VERSION
    } else {
        SELECTS_VERSION
    }
}

/// Reads the selects of classes where an image of a version has them, those of the classes with the numbers from `first` on.
/// In version 1 there are none.
pub fn read_section(
    alloc: Global,
    bytes: &List<u8>,
    place: usize,
    version: u8,
    ranges: &Ranges,
    first: u16,
) -> Result<Read<List<WireSelects>>, ImageFault>
    requires place { place ≤ length bytes.now }
    requires ranges { length ranges.now.entries ≡ ranges.now.classes }
    ensures known { IfOk result (λ r. AreSelectsOf ranges.now r.value) }
    ensures exact { Gives result (section_at version ranges.now first bytes.now place) }
    ensures next { IfOk result (λ r. r.next ≤ length bytes.now) }
{
    if version == SELECTS_VERSION {
        read_selects(alloc, bytes, place, ranges, first)
    } else {
        Ok(Read {
            value: List::new(alloc),
            next: place,
        })
    }
}

/// The bytes of an image so far, and after them the selects of classes, where there are some.
pub fn with_section(
    alloc: Global,
    front: List<u8>,
    selects: &List<WireSelects>,
) -> Result<List<u8>, NoMemory>
    requires { FitsSomeSection selects.now }
    ensures { IfOk result (λ image. image ≡ front ++ section selects.now) }
{
    let mut image = front;
    if selects.is_empty() {
        Ok(image)
    } else {
        write_selects(alloc, &mut image, selects)?;
        Ok(image)
    }
}
