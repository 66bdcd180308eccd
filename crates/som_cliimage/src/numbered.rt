//! Turns a client program with names to the program of an image.

ghost use Rattle.som_cliimage.specs.Limits.{IsWithinLimits};
ghost use Rattle.som_cliimage.specs.Naming.{program_named};
ghost use Rattle.som_cliimage.specs.Numbering.{program_numbered};
ghost use Rattle.som_cliimage.specs.Spelling.{FitsProgram};
ghost use Rattle.som_image_encode.specs.NumberedClasses.{FaceKnown, face_numbered};
ghost use Rattle.som_model.specs.Conforming.{ProgramOk};
ghost use Rattle.som_image_encode.specs.Numbering.{IsDirectory};
ghost use Rattle.som_order.specs.Names.{texts};
ghost use Rattle.std.specs.Prelude.{◌≡◌, map, All, IfOk};

use crate::directory::{interface_directory, program_directory};
use crate::wire::WireProgram;
use indexmap::IndexSet;
use som_image_classes::KERNEL_CLASSES;
use som_image_decode::Directory;
use som_image_encode::{
    class_names, number_block, number_face, number_faces, number_parts, number_selects,
};
use som_image_fields::WireFace;
use som_model::{ClassFace, ClientProgram, List, NoMemory};
use std::alloc::Global;

fn number_each(
    alloc: Global,
    names: &IndexSet<&[u8]>,
    directory: &Directory,
    faces: &[ClassFace],
) -> Result<List<WireFace>, NoMemory>
    requires directory { IsDirectory (texts names.now.keys) directory.now }
    requires known { All (FaceKnown directory.now.keys) faces.now }
    ensures { IfOk result (λ numbered. numbered ≡ map (face_numbered directory.now.keys) faces.now) }
{
    let mut numbered = List::new(alloc);
    for face in faces {
        numbered.push(number_face(alloc, names, directory, face)?)?;
    }
    Ok(numbered)
}

// The faces of an image that stand for those that a client was compiled against: they have the numbers of no class of its own.
fn number_base(alloc: Global, program: &ClientProgram) -> Result<List<WireFace>, NoMemory>
    requires conforms { ProgramOk program.now }
    requires within { IsWithinLimits program.now }
    ensures { IfOk result (λ faces. faces ≡ (program_numbered program.now).base) }
{
    let directory = interface_directory(alloc, &program.base)?;
    let names = class_names(alloc, &directory)?;
    number_each(alloc, &names, &directory, program.base.classes.as_slice())
}

/// The program with numbers and slots that a program is named from.
pub(crate) fn number_program(
    alloc: Global,
    program: &ClientProgram,
) -> Result<WireProgram, NoMemory>
    requires conforms { ProgramOk program.now }
    requires within { IsWithinLimits program.now }
    ensures names { IfOk result (λ wire. program_named wire ≡ program.now) }
    ensures fits { IfOk result FitsProgram }
{
    number_all(alloc, program)
}

fn number_all(alloc: Global, program: &ClientProgram) -> Result<WireProgram, NoMemory>
    requires conforms { ProgramOk program.now }
    requires within { IsWithinLimits program.now }
    ensures { IfOk result (λ wire. wire ≡ program_numbered program.now) }
{
    let base = number_base(alloc, program)?;
    let directory = program_directory(alloc, program)?;
    let names = class_names(alloc, &directory)?;
    let classes = program.classes.as_slice();
    let faces = number_faces(alloc, &names, &directory, classes)?;
    let parts = number_parts(alloc, &names, &directory, classes)?;
    let first = program.base.classes.len() as u16 + KERNEL_CLASSES;
    let selects = number_selects(alloc, &names, &directory, first, classes)?;
    let main = number_block(alloc, &directory, &names, &program.main)?;
    Ok(WireProgram {
        base,
        faces,
        parts,
        selects,
        main,
    })
}
