//! Decodes and encodes the sections of a client image: head, base, own classes, selects and main.

ghost use Rattle.som_cliimage.specs.NamedReading.{named_bodies_at, named_image_at};
ghost use Rattle.som_cliimage.specs.Programs.{client_from};
ghost use Rattle.som_cliimage.specs.Reading.{client_ranges};
ghost use Rattle.som_cliimage.specs.Spelling.{FitsOwnFaces, FitsProgram, client};
ghost use Rattle.som_image_classes.specs.SpelledClasses.{FitsFaces};
ghost use Rattle.som_image_fields.specs.Fields.{Gives};
ghost use Rattle.std.specs.Prelude.{◌≡◌, ◌≤◌, length, IfOk};

use crate::directory::client_directory;
use crate::form::{ClientForm, test_classes, test_statements};
use crate::named::name_program;
use crate::wire::WireProgram;
use som_image_bodies::read_block;
use som_image_classes::{
    KERNEL_CLASSES, new_image, ranges_of, read_faces, read_faces_after, read_head, read_parts,
    read_section, version_with, with_faces, with_parts, with_section,
};
use som_image_fields::{ImageFault, Ranges, WireFace, write_u16};
use som_model::{ClientProgram, List, MAX_CLIENT_CLASSES, NoMemory};
use som_wire::write_block;
use std::alloc::Global;

const MAGIC: &[u8] = b"SOMC";

const NEWEST_VERSION: u8 = 2;

// How many classes there are, and how many entries each has.
fn client_ranges(
    alloc: Global,
    base: &List<WireFace>,
    own: &List<WireFace>,
) -> Result<Ranges, NoMemory>
    requires base { FitsFaces base.now }
    requires own { FitsOwnFaces base.now own.now }
    ensures { IfOk result (λ ranges. ranges ≡ client_ranges base.now own.now) }
{
    let library = ranges_of(alloc, base)?;
    let mut entries = library.entries;
    for face in own.as_slice() {
        entries.push(face.entries.len() as u16)?;
    }
    Ok(Ranges {
        classes: library.classes + own.len() as u16,
        entries,
    })
}

/// Reads the client image that stands in bytes from a place to their end, to the program that it stands for.
pub(crate) fn read_program(
    alloc: Global,
    bytes: &List<u8>,
    place: usize,
    form: &ClientForm,
) -> Result<ClientProgram, ImageFault>
    requires { place ≤ length bytes.now }
    ensures { Gives result (client_from form.now bytes.now place) }
{
    read_named(alloc, bytes, place, form)
}

#[tactic(auto, unfolding(crate::specs::NamedReading::named_image_at))]
fn read_named(
    alloc: Global,
    bytes: &List<u8>,
    place: usize,
    form: &ClientForm,
) -> Result<ClientProgram, ImageFault>
    requires { place ≤ length bytes.now }
    ensures { Gives result (named_image_at form.now bytes.now place) }
{
    let version = read_head(bytes, place, MAGIC, NEWEST_VERSION)?;
    test_classes(bytes, version.next, form.base_classes)?;
    let base = read_faces(alloc, bytes, version.next)?;
    let before = base.value.len() as u16 + KERNEL_CLASSES;
    let own = read_faces_after(alloc, bytes, base.next, before, MAX_CLIENT_CLASSES)?;
    read_bodies(
        alloc,
        bytes,
        own.next,
        version.value,
        form,
        &base.value,
        &own.value,
    )
}

// No body is kept with numbers: each is named as it is read.
#[tactic(auto, unfolding(crate::specs::NamedReading::named_bodies_at))]
fn read_bodies(
    alloc: Global,
    bytes: &List<u8>,
    place: usize,
    version: u8,
    form: &ClientForm,
    base: &List<WireFace>,
    own: &List<WireFace>,
) -> Result<ClientProgram, ImageFault>
    requires place { place ≤ length bytes.now }
    requires base { FitsFaces base.now }
    requires own { FitsOwnFaces base.now own.now }
    ensures { Gives result (named_bodies_at form.now version base.now own.now bytes.now place) }
{
    let before = base.len() as u16 + KERNEL_CLASSES;
    let ranges = client_ranges(alloc, base, own)?;
    let directory = client_directory(alloc, base, own)?;
    let parts = read_parts(alloc, bytes, place, &directory, &ranges, own)?;
    let selects = read_section(alloc, bytes, parts.next, version, &ranges, before)?;
    test_statements(bytes, selects.next, form.statements)?;
    let main = read_block(alloc, bytes, selects.next, &directory, &ranges, 1)?;
    if main.next < bytes.len() {
        return Err(ImageFault::Trailing { offset: main.next });
    }
    Ok(name_program(
        alloc,
        &directory,
        base,
        own,
        parts.value,
        &selects.value,
        main.value,
    )?)
}

/// The client image of a program with numbers.
pub(crate) fn write_program(alloc: Global, wire: &WireProgram) -> Result<List<u8>, NoMemory>
    requires { FitsProgram wire.now }
    ensures { IfOk result (λ image. image ≡ client wire.now) }
{
    let mut image = new_image(alloc, MAGIC, version_with(&wire.selects))?;
    write_u16(&mut image, wire.base.len() as u16)?;
    let mut image = with_faces(alloc, image, &wire.base)?;
    write_u16(&mut image, wire.faces.len() as u16)?;
    let image = with_faces(alloc, image, &wire.faces)?;
    let image = with_parts(alloc, image, &wire.parts)?;
    let mut image = with_section(alloc, image, &wire.selects)?;
    write_block(alloc, &mut image, &wire.main)?;
    Ok(image)
}
