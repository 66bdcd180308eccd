//! A change of modules, as code asks it.

ghost use Rattle.som_rekey_laws.specs.Rekeying.{ModuleChange};
ghost use Rattle.std.specs.Prelude.{◌≡◌};

use som_model::{Module, Text};

/// Which module each named class gets.
pub trait NewModules {
    /// The new module of each name, by its module.
    ghost change: { Self → ModuleChange };

    /// The new module of the class of a name in a module.
    fn module_of(&self, origin: Module, name: &Text) -> Module
        ensures { result ≡ change self.now origin name.now };
}
