//! Which libraries one above the other can be loaded, and which clients above them.

ghost use Rattle.som_level_programs.specs.Towers.{AreStacked, LevelProgram, StandsOn, by_level, own_interface};
ghost use Rattle.som_model.specs.Class.{Class, interface_of};
ghost use Rattle.som_model.specs.Classes.{library_classes};
ghost use Rattle.som_model.specs.Conforming.{ReleaseOk};
ghost use Rattle.som_model.specs.Counts.{ClassCounted, block_counted};
ghost use Rattle.som_model.specs.Lists.{Mem};
ghost use Rattle.som_model.specs.Loads.{Loads};
ghost use Rattle.som_model.specs.declared.limits.TheConstants.{MAX_LAID_CLASSES};
ghost use Rattle.som_model.specs.declared.program.Release.{Release};
ghost use Rattle.som_release_laws.specs.Releasing.{AreLoadable, HaveParents, stacked};
ghost use Rattle.std.specs.Prelude.{◌≡◌, ◌≤◌, [], ◌∷◌, ◌++◌, List as Seq, length, map, true};

/// Where a library conforms, and each of the libraries above it conforms and stands above levels that are
/// compatible with those against which it was compiled, all can be loaded together, with their classes by
/// levels. So can they with a client above them that conforms and stands so, within the counts. Parents are
/// asked for since a class without any conforms, and no image has one.
pub fn tower_loads_law()
    ensures libraries { (r : Release) (ls : Seq LevelProgram) → ReleaseOk r → HaveParents (library_classes r) →
        AreStacked (interface_of r ∷ []) ls → AreLoadable (stacked (library_classes r) (map by_level ls)) }
    ensures client { (r : Release) (ls : Seq LevelProgram) (l : LevelProgram) → ReleaseOk r → HaveParents (library_classes r) →
        AreStacked (interface_of r ∷ []) ls → StandsOn (interface_of r ∷ map own_interface ls) l →
        length (stacked (library_classes r) (map by_level ls) ++ (by_level l).own) ≤ MAX_LAID_CLASSES →
        ((c : Class) → Mem c (stacked (library_classes r) (map by_level ls) ++ (by_level l).own) → ClassCounted c.decl) →
        block_counted (by_level l).main ≡ true →
        Loads (stacked (library_classes r) (map by_level ls) ++ (by_level l).own) (by_level l).main }
{}
