//! Answers whether an interface may be compared: its faces break no rule and are within the counts.

ghost use Rattle.som_compat.specs.Conditions.{Conforms, IsCounted};
ghost use Rattle.som_model.specs.Class.{bare};
ghost use Rattle.std.specs.Prelude.{◌≡◌, ◌↔◌, All, IfOk, IsTrue, map};

use som_model::{
    ClassDecl, ClassFace, Interface, List, MAX_ENTRIES, MAX_LIBRARY_CLASSES, MAX_PARENTS, NoMemory,
};
use som_verify_classes::VerifyFault;
use som_verify_rules::faces_ok;
use std::alloc::Global;

/// Whether an interface may be compared: it breaks no rule that looks at faces, and is within the counts.
pub fn conforms(alloc: Global, interface: &Interface) -> Result<bool, NoMemory>
    ensures { IfOk result (λ answer. IsTrue answer ↔ Conforms interface.now) }
{
    let faces = interface.classes.as_slice();
    if faces.len() > MAX_LIBRARY_CLASSES as usize || !are_counted(faces) {
        return Ok(false);
    }
    let classes = bare_classes(alloc, faces)?;
    match faces_ok(alloc, &classes) {
        Ok(()) => Ok(true),
        Err(VerifyFault::Rule(_)) => Ok(false),
        Err(VerifyFault::NoMemory) => Err(NoMemory),
    }
}

fn are_counted(faces: &[ClassFace]) -> bool
    ensures { IsTrue result ↔ All IsCounted faces.now }
{
    for face in faces {
        if !is_counted(face) {
            return false;
        }
    }
    true
}

fn is_counted(face: &ClassFace) -> bool
    ensures { IsTrue result ↔ IsCounted face.now }
{
    let parents = face.parents.len();
    1 <= parents && parents <= MAX_PARENTS as usize && face.entries.len() <= MAX_ENTRIES as usize
}

fn bare_classes(alloc: Global, faces: &[ClassFace]) -> Result<Vec<ClassDecl>, NoMemory>
    ensures { IfOk result (λ classes. classes.items ≡ map bare faces.now) }
{
    let mut classes = Vec::new(alloc);
    for face in faces {
        classes.push(bare_class(alloc, face)?)?;
    }
    Ok(classes)
}

fn bare_class(alloc: Global, face: &ClassFace) -> Result<ClassDecl, NoMemory>
    ensures { IfOk result (λ class. class ≡ bare face.now) }
{
    Ok(ClassDecl {
        face: face.copy(alloc)?,
        variables: List::new(alloc),
        bodies: List::new(alloc),
        overrides: List::new(alloc),
        selects: List::new(alloc),
    })
}
