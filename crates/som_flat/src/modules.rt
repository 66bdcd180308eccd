//! The change of modules that makes one library of all levels.

ghost use Rattle.som_compat_levels.specs.Standing.{class_of};
ghost use Rattle.som_flat_laws.specs.Flat.{flat_module};
ghost use Rattle.som_rekey_laws.specs.Rekeying.{rekey};
ghost use Rattle.std.specs.Prelude.{◌≡◌, IfOk};

use som_compat_levels::PlacedClass;
use som_model::{ClassKey, Module, NoMemory, Text};
use som_rekey::NewModules;
use std::alloc::Global;

/// Each level becomes the library.
#[derive(Clone, Copy)]
pub struct FlatModules;

impl NewModules for FlatModules {
    ghost use Rattle.som_flat_laws.specs.Flat.{flat_module};

    ghost change = { λ _. flat_module };

    fn module_of(&self, origin: Module, _name: &Text) -> Module {
        flat_home(origin)
    }
}

// The module in which a class of this module stands then.
fn flat_home(origin: Module) -> Module
    ensures { (name : _) → result ≡ flat_module origin name }
{
    match origin {
        Module::Kernel => Module::Kernel,
        Module::Library => Module::Library,
        Module::Upper(_) => Module::Library,
        Module::Client => Module::Client,
    }
}

/// The key of a class of a level in the flat interface.
pub fn flat_key(alloc: Global, class: &PlacedClass) -> Result<ClassKey, NoMemory>
    ensures { IfOk result (λ k. k ≡ rekey flat_module (class_of class.now).key) }
{
    let name = class.face.name.copy(alloc)?;
    Ok(ClassKey::Named {
        module: flat_home(class.module),
        name,
    })
}
