//! The law of how many classes are made.

ghost use Rattle.som_class_table.specs.Loaded.{AreLoaded};
ghost use Rattle.som_class_kernel.specs.Linked.{IsLinked, Linkage};
ghost use Rattle.som_classmgr.specs.Asking.{is_made};
ghost use Rattle.std.specs.List.{count_by};
ghost use Rattle.std.specs.Prelude.{◌≡◌};

/// Of a linked kernel as many numbers are marked as made, which `Kernel::made` counts, as there are keys whose classes are made: no two numbers stand for one
/// class.
pub fn made_law()
    ensures { (l : Linkage) → IsLinked l → AreLoaded l.classes → count_by (λ m. m) l.parts.made ≡ count_by (is_made l.classes.keys l.parts.made) l.classes.keys }
{}
