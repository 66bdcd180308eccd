//! The kernel's four classes as declarations, put before those of a program.

ghost use Rattle.som_model.specs.Class.{bare, class_in};
ghost use Rattle.som_model.specs.Kernel.{kernel};
ghost use Rattle.som_class_ids.specs.Classes.{class_of, classes_of};
ghost use Rattle.std.specs.Prelude.{◌≡◌, ◌++◌, IfOk, map};

use som_builtins::kernel_faces;
use som_class_ids::Keyed;
use som_model::{ClassDecl, ClassFace, ClassKey, List, Module, NoMemory};
use std::alloc::Global;

/// A class of which there is a face alone.
fn bare_class(alloc: Global, face: ClassFace) -> ClassDecl
    ensures { result ≡ bare face }
{
    ClassDecl {
        face,
        variables: List::new(alloc),
        bodies: List::new(alloc),
        overrides: List::new(alloc),
        selects: List::new(alloc),
    }
}

/// The kernel's class of a face.
fn kernel_class(alloc: Global, face: &ClassFace) -> Result<Keyed, NoMemory>
    ensures { IfOk result (λ class. class_of class ≡ class_in Module.Kernel (bare face.now)) }
{
    let name = face.name.copy(alloc)?;
    let face = face.copy(alloc)?;
    Ok(Keyed {
        key: ClassKey::Named {
            module: Module::Kernel,
            name,
        },
        decl: bare_class(alloc, face),
    })
}

fn classes_of_faces(alloc: Global, faces: &[ClassFace]) -> Result<List<Keyed>, NoMemory>
    ensures { IfOk result (λ classes. classes_of classes ≡ map (λ face. class_in Module.Kernel (bare face)) faces.now) }
{
    let mut classes = List::new(alloc);
    for face in faces {
        classes.push(kernel_class(alloc, face)?)?;
    }
    Ok(classes)
}

/// The kernel's classes.
fn kernel_classes(alloc: Global) -> Result<List<Keyed>, NoMemory>
    ensures { IfOk result (λ classes. classes_of classes ≡ kernel) }
{
    let kernel = kernel_faces(alloc)?;
    classes_of_faces(alloc, kernel.classes.as_slice())
}

/// The kernel's classes, and then others.
pub(crate) fn after_kernel(alloc: Global, others: List<Keyed>) -> Result<List<Keyed>, NoMemory>
    ensures { IfOk result (λ all. classes_of all ≡ kernel ++ classes_of others) }
{
    let mut others = others.into_vec();
    let mut all = kernel_classes(alloc)?.into_vec();
    all.append(&mut others)?;
    Ok(List::from_vec(all))
}
