//! Formats a release as lines, class by class.

ghost use Rattle.som_show.specs.Shown.{class_lines, shown_lines};
ghost use Rattle.std.specs.Prelude.{◌≡◌, ◌++◌, IfOk, OnOk};

use crate::count::library_count;
use crate::face::add_face;
use som_model::{ClassDecl, List, NoMemory, Release, Text};
use std::alloc::Global;

/// The lines of what is seen of declared classes, after those that are there.
pub fn add_classes(
    alloc: Global,
    lines: &mut List<Text>,
    classes: &[ClassDecl],
) -> Result<(), NoMemory>
    ensures { OnOk result (lines.new ≡ lines.old ++ class_lines classes.now) }
{
    for class in classes {
        add_face(alloc, lines, &class.face)?;
    }
    Ok(())
}

/// The lines that show a release, each with its end.
pub fn shown(alloc: Global, release: &Release) -> Result<List<Text>, NoMemory>
    ensures { IfOk result (λ lines. lines ≡ shown_lines release.now) }
{
    let classes = release.classes.as_slice();
    let mut lines = List::new(alloc);
    lines.push(library_count(alloc, classes.len())?)?;
    add_classes(alloc, &mut lines, classes)?;
    Ok(lines)
}
