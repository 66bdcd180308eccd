//! The law by which methods are found by name in classes that are made.

ghost use Rattle.som_class_loaded.specs.Added.{HasClasses};
ghost use Rattle.som_class_table.specs.Loaded.{AreLoaded};
ghost use Rattle.som_class_kernel.specs.Linked.{IsLinked, IsMadeIn, Linkage};
ghost use Rattle.std.specs.Prelude.{ℕ};

/// The ancestors of a class that is made are made, so the index has the names of all of them, and methods are found by name in the class.
pub fn names_law()
    ensures { (l : Linkage) (n : ℕ) → IsLinked l → AreLoaded l.classes → IsMadeIn l n → HasClasses l.classes l.parts.names n }
{}
