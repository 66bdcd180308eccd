//! Formats a client program as lines: the faces of its base, and its own classes.

ghost use Rattle.som_show.specs.Shown.{client_lines, face_lines};
ghost use Rattle.std.specs.Prelude.{◌≡◌, ◌++◌, flat_map, IfOk, OnOk};

use crate::count::{client_count, library_count};
use crate::face::add_face;
use crate::release::add_classes;
use som_model::{ClassFace, ClientProgram, List, NoMemory, Text};
use std::alloc::Global;

// The lines of faces, after those that are there.
fn add_faces(alloc: Global, lines: &mut List<Text>, faces: &[ClassFace]) -> Result<(), NoMemory>
    ensures { OnOk result (lines.new ≡ lines.old ++ flat_map face_lines faces.now) }
{
    for face in faces {
        add_face(alloc, lines, face)?;
    }
    Ok(())
}

/// The lines that show a client program, each with its end: first the faces that it was compiled against, as a library's.
pub fn shown_client(alloc: Global, program: &ClientProgram) -> Result<List<Text>, NoMemory>
    ensures { IfOk result (λ lines. lines ≡ client_lines program.now) }
{
    let faces = program.base.classes.as_slice();
    let classes = program.classes.as_slice();
    let mut lines = List::new(alloc);
    lines.push(library_count(alloc, faces.len())?)?;
    add_faces(alloc, &mut lines, faces)?;
    lines.push(client_count(alloc, classes.len())?)?;
    add_classes(alloc, &mut lines, classes)?;
    Ok(lines)
}
