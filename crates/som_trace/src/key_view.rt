//! The key of a class one level deep, and what the lines of a run ask of classes.

ghost use Rattle.som_meta.specs.Numbering.{IsNumbered, IsToken, Numbering, key_at, method_at};
ghost use Rattle.som_trace.specs.Views.{IsView};
ghost use Rattle.std.specs.Prelude.{◌≡◌};

use som_model::{List, Module, Text};
use som_tables::{ClassNo, MToken};

/// The key of a class one level deep: what a made class is made of stands there by its numbers.
#[derive(Clone, Copy)]
pub enum KeyView<'a> {
    Named { module: Module, name: &'a Text },
    Derived { parents: &'a List<ClassNo> },
    Proxy { target: ClassNo },
}

/// What the lines of a run ask of the classes.
pub trait ClassKeys {
    /// The classes, and the key that each number stands for.
    ghost known: { Self → Numbering };

    /// What a class is made of, one level deep, so that no tree of keys is built.
    fn key(&self, class: ClassNo) -> KeyView<'_>
        requires { IsNumbered (known self.now) class }
        ensures { IsView (known self.now) result (key_at (known self.now) class) };

    /// The name of the method of a token.
    fn method_name(&self, method: MToken) -> &Text
        requires { IsToken (known self.now) method }
        ensures { result.now ≡ (method_at (known self.now) method).name };
}
