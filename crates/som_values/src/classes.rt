//! What values ask of the classes of a run: descent, metaclasses, and the class manager's class.

ghost use Rattle.som_model.specs.declared.key.ClassKey.{ClassKey};
ghost use Rattle.som_model.specs.Kernel.{som_class_mgr};
ghost use Rattle.som_semantics.specs.World.{World};
ghost use Rattle.som_values.specs.Shown.{IsKey, IsNumbered, key_of};
ghost use Rattle.std.specs.Prelude.{◌≡◌, Bool, List, true};

use som_model::ClassKey as Key;
use som_tables::ClassNo;

/// What values ask of the classes of a run, by their numbers; the classes themselves are the struct of `som_class_table`.
pub trait Classes {
    /// The key that each number stands for.
    ghost keys: { Self → List ClassKey };

    /// Which classes are made.
    ghost made: { Self → ClassKey → Bool };

    /// What a run asks of the classes.
    ghost world: { Self → World };

    /// Whether a class is one of this key or descends from it.
    fn descends(&self, class: ClassNo, ancestor: &Key) -> bool
        requires { IsNumbered (keys self.now) class }
        ensures { result ≡ (world self.now).is_a (key_of (keys self.now) class) ancestor.now };

    /// Whether the class of a key is that of another key or descends from it.
    fn is_a(&self, class: &Key, ancestor: &Key) -> bool
        requires { IsKey (keys self.now) class.now }
        ensures { result ≡ (world self.now).is_a class.now ancestor.now };

    /// The class of a class's own object.
    fn metaclass(&self, class: ClassNo) -> ClassNo
        requires numbered { IsNumbered (keys self.now) class }
        requires made { made self.now (key_of (keys self.now) class) ≡ true }
        ensures numbered { IsNumbered (keys self.now) result }
        ensures key { key_of (keys self.now) result ≡ (world self.now).meta (key_of (keys self.now) class) };

    /// The class of the class manager object.
    fn manager(&self) -> ClassNo
        ensures numbered { IsNumbered (keys self.now) result }
        ensures key { key_of (keys self.now) result ≡ som_class_mgr };
}
