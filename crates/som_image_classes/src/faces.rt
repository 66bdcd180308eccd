//! Decodes and encodes the faces in an image, and counts the classes and entries that they give.

ghost use Rattle.som_image_classes.specs.ReadClasses.{faces_after_at, faces_at, ranges_of};
ghost use Rattle.som_image_classes.specs.SpelledClasses.{FitsFaces, FitsFacesAfter};
ghost use Rattle.som_image_fields.specs.Fields.{Gives, Stands, done};
ghost use Rattle.som_image_fields.specs.Reading.{face_at};
ghost use Rattle.som_image_fields.specs.Spelling.{FitsFace, counted, face, most_classes};
ghost use Rattle.std.specs.Int.{w16};
ghost use Rattle.std.specs.List.{flat_map};
ghost use Rattle.std.specs.Prelude.{◌≡◌, ◌<◌, ◌≤◌, ◌+◌, ◌++◌, ◌^◌, ℕ, length, All, IfOk};

use som_image_fields::{
    ImageFault, Ranges, Read, WireFace, read_face, read_many, read_u16, write_face,
};
use som_model::{List, MAX_LIBRARY_CLASSES, NoMemory};
use std::alloc::Global;

/// How many classes the kernel has. Their numbers come first.
pub const KERNEL_CLASSES: u16 = 4;

// How many entries the kernel's classes have.
const KERNEL_ENTRIES: [u16; 4] = [9, 6, 1, 2];

#[tactic(auto, unfolding(crate::specs::ReadClasses::faces_after_at))]
fn read_counted_faces(
    alloc: Global,
    bytes: &List<u8>,
    place: usize,
    before: u16,
    most: u32,
) -> Result<Read<List<WireFace>>, ImageFault>
    requires place { place ≤ length bytes.now }
    requires few { before + most < 2 ^ 16 }
    ensures exact { Gives result (faces_after_at before most bytes.now place) }
    ensures next { IfOk result (λ r. r.next ≤ length bytes.now) }
{
    let count = read_u16(bytes, place)?;
    let faces = u32::from(count.value);
    if faces > most {
        return Err(ImageFault::Number { offset: place });
    }
    let classes = count.value + before;
    read_many(
        alloc,
        bytes,
        faces,
        count.next,
        |p: usize| -> Result<Read<WireFace>, ImageFault>
            requires { p ≤ length bytes.now }
            ensures exact { Gives result (face_at classes bytes.entry.now p) }
            ensures next { IfOk result (λ r. r.next ≤ length bytes.entry.now) }
        { read_face(alloc, bytes, p, classes) },
    )
}

/// Reads the number of some classes at a place, of which there are at most `most`, and their faces, which may name these
/// classes and the `before` classes that have the numbers below.
pub fn read_faces_after(
    alloc: Global,
    bytes: &List<u8>,
    place: usize,
    before: u16,
    most: u32,
) -> Result<Read<List<WireFace>>, ImageFault>
    requires place { place ≤ length bytes.now }
    requires few { before + most < 2 ^ 16 }
    ensures found { IfOk result (λ r. Stands bytes.now place (counted w16 face r.value) r.next × FitsFacesAfter before most r.value) }
    ensures only { (faces : _) (next : ℕ) → Stands bytes.now place (counted w16 face faces) next →
        FitsFacesAfter before most faces → Gives result (done faces next) }
    ensures exact { Gives result (faces_after_at before most bytes.now place) }
{
    let _all = bytes.as_bytes();
    read_counted_faces(alloc, bytes, place, before, most)
}

/// Reads the number of a library's classes at a place, and their faces, which may name those classes and the kernel's. So
/// stand the faces in the image of a client too.
pub fn read_faces(
    alloc: Global,
    bytes: &List<u8>,
    place: usize,
) -> Result<Read<List<WireFace>>, ImageFault>
    requires { place ≤ length bytes.now }
    ensures found { IfOk result (λ r. Stands bytes.now place (counted w16 face r.value) r.next × FitsFaces r.value) }
    ensures only { (faces : _) (next : ℕ) → Stands bytes.now place (counted w16 face faces) next →
        FitsFaces faces → Gives result (done faces next) }
    ensures exact { Gives result (faces_at bytes.now place) }
{
    read_faces_after(alloc, bytes, place, KERNEL_CLASSES, MAX_LIBRARY_CLASSES)
}

/// How many classes there are, and how many entries each has: the kernel's, and those with these faces.
pub fn ranges_of(alloc: Global, faces: &List<WireFace>) -> Result<Ranges, NoMemory>
    requires { FitsFaces faces.now }
    ensures { IfOk result (λ ranges. ranges ≡ ranges_of faces.now) }
{
    let mut entries = List::from_slice(alloc, &KERNEL_ENTRIES)?;
    for face in faces.as_slice() {
        entries.push(face.entries.len() as u16)?;
    }
    Ok(Ranges {
        classes: faces.len() as u16 + KERNEL_CLASSES,
        entries,
    })
}

/// The bytes of an image so far, and after them these faces without their number.
pub fn with_faces(
    alloc: Global,
    front: List<u8>,
    faces: &List<WireFace>,
) -> Result<List<u8>, NoMemory>
    requires { All (FitsFace most_classes) faces.now }
    ensures { IfOk result (λ image. image ≡ front ++ flat_map face faces.now) }
{
    let mut image = front;
    for face in faces.as_slice() {
        write_face(alloc, &mut image, face)?;
    }
    Ok(image)
}
