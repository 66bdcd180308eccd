//! Decodes the parts in an image, one for each face, to what they stand for, and encodes parts with numbers.

ghost use Rattle.som_image_fields.specs.Fitting.{FitsSomePart};
ghost use Rattle.som_image_fields.specs.SyntaxSpelling.{part};
ghost use Rattle.som_image_bodies.specs.Naming.{naming};
ghost use Rattle.som_image_classes.specs.NamedClasses.{part_named};
ghost use Rattle.som_image_classes.specs.NamedReading.{named_parts_at};
ghost use Rattle.som_image_classes.specs.ReadClasses.{introduced_count, parts_at};
ghost use Rattle.som_image_decode.specs.Naming.{ranges_in};
ghost use Rattle.som_model.specs.declared.limits.TheConstants.{MAX_ENTRIES};
ghost use Rattle.som_image_fields.specs.Fields.{Gives};
ghost use Rattle.std.specs.List.{flat_map};
ghost use Rattle.std.specs.Prelude.{◌≡◌, ◌≤◌, ◌++◌, length, map, All, IfOk};

use crate::named_part::{NamedPart, read_part};
use som_image_decode::Directory;
use som_image_fields::{ImageFault, Ranges, Read, WireEntry, WireFace};
use som_model::{List, NoMemory};
use som_wire::{WirePart, write_part};
use std::alloc::Global;

// How many entries a face introduces.
fn introduced_count(face: &WireFace) -> u16
    requires { length face.now.entries ≤ MAX_ENTRIES }
    ensures { result ≡ introduced_count face.now }
{
    let mut count = 0;
    for entry in face.entries.as_slice() {
        match entry {
            WireEntry::Introduced { .. } => count += 1,
            WireEntry::Moved { .. } => {}
        }
    }
    count
}

/// Reads a part for each of these faces, one after the other, to what it stands for.
pub fn read_parts(
    alloc: Global,
    bytes: &List<u8>,
    place: usize,
    directory: &Directory,
    ranges: &Ranges,
    faces: &List<WireFace>,
) -> Result<Read<List<NamedPart>>, ImageFault>
    requires place { place ≤ length bytes.now }
    requires entries { length ranges.now.entries ≡ ranges.now.classes }
    requires ranges { ranges.now ≡ ranges_in directory.now }
    requires few { All (λ f. length f.entries ≤ MAX_ENTRIES) faces.now }
    ensures exact { Gives result (naming (map (part_named directory.now)) (parts_at ranges.now faces.now bytes.now place)) }
    ensures many { IfOk result (λ r. length r.value ≡ length faces.now) }
    ensures next { IfOk result (λ r. r.next ≤ length bytes.now) }
{
    read_each_part(alloc, bytes, place, directory, ranges, faces)
}

fn read_each_part(
    alloc: Global,
    bytes: &List<u8>,
    place: usize,
    directory: &Directory,
    ranges: &Ranges,
    faces: &List<WireFace>,
) -> Result<Read<List<NamedPart>>, ImageFault>
    requires place { place ≤ length bytes.now }
    requires entries { length ranges.now.entries ≡ ranges.now.classes }
    requires ranges { ranges.now ≡ ranges_in directory.now }
    requires few { All (λ f. length f.entries ≤ MAX_ENTRIES) faces.now }
    ensures exact { Gives result (named_parts_at directory.now ranges.now faces.now bytes.now place) }
    ensures next { IfOk result (λ r. r.next ≤ length bytes.now) }
{
    let mut value = List::new(alloc);
    let mut next = place;
    for face in faces.as_slice() {
        let part = read_part(
            alloc,
            bytes,
            next,
            directory,
            ranges,
            introduced_count(face),
        )?;
        value.push(part.value)?;
        next = part.next;
    }
    Ok(Read { value, next })
}

/// The bytes of an image so far, and after them these parts.
pub fn with_parts(
    alloc: Global,
    front: List<u8>,
    parts: &List<WirePart>,
) -> Result<List<u8>, NoMemory>
    requires { All FitsSomePart parts.now }
    ensures { IfOk result (λ image. image ≡ front ++ flat_map part parts.now) }
{
    let mut image = front;
    for part in parts.as_slice() {
        write_part(alloc, &mut image, part)?;
    }
    Ok(image)
}
