//! The classes of a library and a client with their keys, copied or moved.

ghost use Rattle.som_model.specs.Class.{class_in};
ghost use Rattle.som_model.specs.Classes.{client_classes, library_classes};
ghost use Rattle.som_model.specs.declared.key.Module.TheVariants as modules;
ghost use Rattle.som_class_ids.specs.Classes.{class_of, classes_of};
ghost use Rattle.std.specs.Prelude.{◌≡◌, ◌++◌, IfOk, OnOk, map};

use som_class_ids::Keyed;
use som_model::{ClassDecl, ClassKey, ClientProgram, List, Module, NoMemory, Release};
use std::alloc::Global;

/// A class and its key, equal to these.
fn copy_keyed(alloc: Global, class: &Keyed) -> Result<Keyed, NoMemory>
    ensures { IfOk result (λ copy. copy ≡ class.now) }
{
    let decl = class.decl.copy(alloc)?;
    Ok(Keyed {
        key: class.key.copy(alloc)?,
        decl,
    })
}

/// Classes equal to these, in order.
pub fn copy_classes(alloc: Global, classes: &[Keyed]) -> Result<List<Keyed>, NoMemory>
    ensures { IfOk result (λ copies. copies ≡ classes.now) }
{
    let mut copies = List::new(alloc);
    for class in classes {
        copies.push(copy_keyed(alloc, class)?)?;
    }
    Ok(copies)
}

/// A copy of a class, with its key in a module.
fn keyed(alloc: Global, origin: Module, decl: &ClassDecl) -> Result<Keyed, NoMemory>
    ensures { IfOk result (λ class. class_of class ≡ class_in origin decl.now) }
{
    let name = decl.face.name.copy(alloc)?;
    let decl = decl.copy(alloc)?;
    Ok(Keyed {
        key: ClassKey::Named {
            module: origin,
            name,
        },
        decl,
    })
}

/// Adds copies of classes, with their keys in a module.
#[tactic(auto, using(crate::proofs::Pairing::classes_more))]
fn add_classes(
    alloc: Global,
    origin: Module,
    decls: &[ClassDecl],
    all: &mut List<Keyed>,
) -> Result<(), NoMemory>
    ensures { OnOk result (classes_of all.new ≡ classes_of all.old ++ map (class_in origin) decls.now) }
{
    for decl in decls {
        all.push(keyed(alloc, origin, decl)?)?;
    }
    Ok(())
}

/// Copies of the classes of a library and of a client, with their keys.
pub fn classes_of_pair(
    alloc: Global,
    library: &Release,
    client: &ClientProgram,
) -> Result<List<Keyed>, NoMemory>
    ensures { IfOk result (λ all. classes_of all ≡ library_classes library.now ++ client_classes client.now) }
{
    let mut all = List::new(alloc);
    add_classes(alloc, Module::Library, library.classes.as_slice(), &mut all)?;
    add_classes(alloc, Module::Client, client.classes.as_slice(), &mut all)?;
    Ok(all)
}

/// A class with its key in a module, of which the name alone is copied.
fn keyed_own(alloc: Global, origin: Module, decl: ClassDecl) -> Result<Keyed, NoMemory>
    ensures { IfOk result (λ class. class_of class ≡ class_in origin decl) }
{
    let name = decl.face.name.copy(alloc)?;
    Ok(Keyed {
        key: ClassKey::Named {
            module: origin,
            name,
        },
        decl,
    })
}

/// Adds classes, with their keys in a module.
#[tactic(auto, using(crate::proofs::Pairing::classes_more))]
fn add_own_classes(
    alloc: Global,
    origin: Module,
    decls: List<ClassDecl>,
    all: &mut List<Keyed>,
) -> Result<(), NoMemory>
    ensures { OnOk result (classes_of all.new ≡ classes_of all.old ++ map (class_in origin) decls) }
{
    for decl in decls.into_vec() {
        all.push(keyed_own(alloc, origin, decl)?)?;
    }
    Ok(())
}

/// The classes of a library and of a client, which are moved, with their keys. No body is copied.
pub fn own_classes_of_pair(
    alloc: Global,
    library: List<ClassDecl>,
    client: List<ClassDecl>,
) -> Result<List<Keyed>, NoMemory>
    ensures { IfOk result (λ all. classes_of all ≡ map (class_in modules.Library) library ++ map (class_in modules.Client) client) }
{
    let mut all = List::new(alloc);
    add_own_classes(alloc, Module::Library, library, &mut all)?;
    add_own_classes(alloc, Module::Client, client, &mut all)?;
    Ok(all)
}
