//! Formats the face of a class as lines: name, version, parents, metaclass and release order.

ghost use Rattle.som_model.specs.ClassNames.{class_name};
ghost use Rattle.som_show.specs.Shown.{class_line, face_lines, metaclass_lines};
ghost use Rattle.std.specs.Prelude.{◌≡◌, ◌++◌, IfOk, OnOk};

use crate::entry::add_entries;
use crate::name::{add_class, add_classes, add_number};
use som_model::{ClassFace, ClassKey, List, NoMemory, Text};
use std::alloc::Global;

// The name, the version and the parents of a class.
fn shown_class(alloc: Global, face: &ClassFace) -> Result<Text, NoMemory>
    ensures { IfOk result (λ line. line ≡ class_line face.now) }
{
    let mut line = Vec::new(alloc);
    line.extend_from_slice(b"class ")?;
    line.extend_from_slice(face.name.as_slice())?;
    line.push(b' ')?;
    add_number(&mut line, u64::from(face.major))?;
    line.push(b'.')?;
    add_number(&mut line, u64::from(face.minor))?;
    line.extend_from_slice(b" : ")?;
    add_classes(&mut line, face.parents.as_slice())?;
    line.push(b'\n')?;
    Ok(Text::from_vec(line))
}

// The line of a metaclass, if there is one.
fn add_metaclass(
    alloc: Global,
    lines: &mut List<Text>,
    metaclass: &Option<ClassKey>,
) -> Result<(), NoMemory>
    ensures { OnOk result (lines.new ≡ lines.old ++ metaclass_lines metaclass.now) }
{
    if let Some(key) = metaclass {
        let mut line = Vec::new(alloc);
        line.extend_from_slice(b"  metaclass ")?;
        add_class(&mut line, key)?;
        line.push(b'\n')?;
        lines.push(Text::from_vec(line))?;
    }
    Ok(())
}

/// The lines of what is seen of a class, after those that are there.
pub fn add_face(alloc: Global, lines: &mut List<Text>, face: &ClassFace) -> Result<(), NoMemory>
    ensures { OnOk result (lines.new ≡ lines.old ++ face_lines face.now) }
{
    lines.push(shown_class(alloc, face)?)?;
    add_metaclass(alloc, lines, &face.metaclass)?;
    add_entries(alloc, lines, face.entries.as_slice())
}
