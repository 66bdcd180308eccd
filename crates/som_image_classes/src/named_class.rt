//! Puts classes together: faces, what their parts stand for, and their selects.

ghost use Rattle.som_image_classes.specs.NamedClasses.{
  AreSelectsOf,
  class_of,
  classes_of,
  selecting,
  with_selects,
};
ghost use Rattle.som_image_decode.specs.Naming.{ranges_in};
ghost use Rattle.som_image_fields.specs.Spelling.{FitsFace, FitsMethod};
ghost use Rattle.std.specs.Prelude.{◌≡◌, ◌+◌, ◌<◌, ◌^◌, length, All, IfOk};

use crate::named_face::name_face;
use crate::named_part::NamedPart;
use crate::named_selects::{name_selects, selects_under};
use som_image_decode::Directory;
use som_image_fields::WireFace;
use som_model::{ClassDecl, List, NoMemory};
use som_wire::{WireSelect, WireSelects};
use std::alloc::Global;

// The class that a face and some selects of an image stand for, with what its part stands for.
fn name_class(
    alloc: Global,
    directory: &Directory,
    face: &WireFace,
    part: NamedPart,
    selects: &[WireSelect],
) -> Result<ClassDecl, NoMemory>
    requires face { FitsFace (length directory.now.keys) face.now }
    requires selects { All (λ s. FitsMethod (ranges_in directory.now) s.method) selects.now }
    ensures { IfOk result (λ named. named ≡ selecting directory.now selects.now (class_of directory.now face.now part)) }
{
    Ok(ClassDecl {
        face: name_face(alloc, &directory.keys, face)?,
        variables: part.variables,
        bodies: part.bodies,
        overrides: part.overrides,
        selects: name_selects(alloc, directory, selects)?,
    })
}

/// The classes that faces, what the parts of their places stand for, and the selects under their numbers make. The first of these
/// classes has the number `first`.
pub fn name_classes(
    alloc: Global,
    directory: &Directory,
    first: u16,
    faces: &List<WireFace>,
    parts: List<NamedPart>,
    selects: &List<WireSelects>,
) -> Result<List<ClassDecl>, NoMemory>
    requires few { first + length faces.now < 2 ^ 16 }
    requires faces { All (FitsFace (length directory.now.keys)) faces.now }
    requires parts { length parts ≡ length faces.now }
    requires selects { AreSelectsOf (ranges_in directory.now) selects.now }
    ensures { IfOk result (λ named. named ≡ with_selects directory.now first selects.now (classes_of directory.now faces.now parts)) }
{
    let faces = faces.as_slice();
    let mut named = List::new(alloc);
    for part in parts.into_vec() {
        let i = named.len();
        let own = selects_under(directory, selects, first + i as u16);
        named.push(name_class(alloc, directory, &faces[i], part, own)?)?;
    }
    Ok(named)
}
