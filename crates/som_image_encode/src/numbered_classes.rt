//! Turns declared classes to the faces and the parts of an image.

ghost use Rattle.som_image_encode.specs.NumberedClasses.{ClassKnown, face_numbered, part_numbered};
ghost use Rattle.som_image_encode.specs.Numbering.{IsDirectory};
ghost use Rattle.som_order.specs.Names.{texts};
ghost use Rattle.std.specs.Prelude.{◌≡◌, map, All, IfOk};

use crate::numbered_face::number_face;
use crate::numbered_part::number_part;
use indexmap::IndexSet;
use som_image_decode::Directory;
use som_image_fields::{WireFace, WirePart};
use som_model::{ClassDecl, List, NoMemory};
use std::alloc::Global;

/// The faces of an image that stand for those of these classes.
pub fn number_faces(
    alloc: Global,
    names: &IndexSet<&[u8]>,
    directory: &Directory,
    classes: &[ClassDecl],
) -> Result<List<WireFace>, NoMemory>
    requires directory { IsDirectory (texts names.now.keys) directory.now }
    requires known { All (ClassKnown directory.now) classes.now }
    ensures { IfOk result (λ faces. faces ≡ map (λ c. face_numbered directory.now.keys c.face) classes.now) }
{
    let mut faces = List::new(alloc);
    for class in classes {
        faces.push(number_face(alloc, names, directory, &class.face)?)?;
    }
    Ok(faces)
}

/// The parts of an image that stand for what these classes have beside their faces.
pub fn number_parts(
    alloc: Global,
    names: &IndexSet<&[u8]>,
    directory: &Directory,
    classes: &[ClassDecl],
) -> Result<List<WirePart>, NoMemory>
    requires directory { IsDirectory (texts names.now.keys) directory.now }
    requires known { All (ClassKnown directory.now) classes.now }
    ensures { IfOk result (λ parts. parts ≡ map (part_numbered directory.now) classes.now) }
{
    let mut parts = List::new(alloc);
    for class in classes {
        parts.push(number_part(alloc, names, directory, class)?)?;
    }
    Ok(parts)
}
