//! Makes class declarations of faces alone, without variables, bodies, overrides and selects.

ghost use Rattle.som_model.specs.Class.{bare};
ghost use Rattle.std.specs.Prelude.{◌≡◌, ◌++◌, ◌∷◌, [], map, IfOk, OnOk};

use som_model::{ClassDecl, ClassFace, List, NoMemory};
use std::alloc::Global;

/// Classes of which the faces alone are known.
pub fn bare_classes(alloc: Global, faces: &[ClassFace]) -> Result<List<ClassDecl>, NoMemory>
    ensures { IfOk result (λ classes. classes ≡ map bare faces.now) }
{
    let mut classes = List::with_room(alloc, faces.len())?;
    for face in faces {
        add_bare(alloc, &mut classes, face)?;
    }
    Ok(classes)
}

fn add_bare(alloc: Global, classes: &mut List<ClassDecl>, face: &ClassFace) -> Result<(), NoMemory>
    ensures { OnOk result (classes.new ≡ classes.old ++ bare face.now ∷ []) }
{
    let face = face.copy(alloc)?;
    classes.push(ClassDecl {
        face,
        variables: List::new(alloc),
        bodies: List::new(alloc),
        overrides: List::new(alloc),
        selects: List::new(alloc),
    })
}
