//! The lowest level of a tower, which is a library.

ghost use Rattle.som_class_ids.specs.Classes.{class_of, classes_of};
ghost use Rattle.som_model.specs.Class.{class_in};
ghost use Rattle.som_model.specs.Classes.{library_classes};
ghost use Rattle.som_model.specs.declared.key.Module.TheVariants as modules;
ghost use Rattle.std.specs.Prelude.{◌≡◌, IfOk};

use som_class_ids::Keyed;
use som_model::{ClassDecl, ClassKey, List, Module, NoMemory, Release};
use std::alloc::Global;

// A copy of a class of the library, with its key.
fn keyed(alloc: Global, decl: &ClassDecl) -> Result<Keyed, NoMemory>
    ensures { IfOk result (λ class. class_of class ≡ class_in modules.Library decl.now) }
{
    let name = decl.face.name.copy(alloc)?;
    let decl = decl.copy(alloc)?;
    Ok(Keyed {
        key: ClassKey::Named {
            module: Module::Library,
            name,
        },
        decl,
    })
}

/// Copies of the classes of a library, with their keys.
pub(crate) fn keyed_library(alloc: Global, base: &Release) -> Result<List<Keyed>, NoMemory>
    ensures { IfOk result (λ all. classes_of all ≡ library_classes base.now) }
{
    let mut all = List::new(alloc);
    for decl in base.classes.as_slice() {
        all.push(keyed(alloc, decl)?)?;
    }
    Ok(all)
}
