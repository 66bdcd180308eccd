//! Laws of accepted towers: the newest releases of all levels stand together, and keep what any releases promise.

ghost use Rattle.som_flat_laws.specs.AcceptedTower.{AcceptedTower, AreNewest, Choice, IsMadeAgainst, chosen_interfaces, interfaces_of};
ghost use Rattle.som_level_laws.specs.Levels.{CompatibleLevels, level_classes};
ghost use Rattle.som_level_programs.specs.Towers.{AreStacked, LevelProgram, StandsOn, by_level};
ghost use Rattle.som_model.specs.Class.{Class, interface_of};
ghost use Rattle.som_model.specs.Classes.{library_classes};
ghost use Rattle.som_model.specs.Counts.{ClassCounted, block_counted};
ghost use Rattle.som_model.specs.Lists.{Mem};
ghost use Rattle.som_model.specs.Loads.{FacesLoad, Loads};
ghost use Rattle.som_model.specs.declared.limits.TheConstants.{MAX_LAID_CLASSES};
ghost use Rattle.som_model.specs.declared.program.Interface.{Interface};
ghost use Rattle.som_model.specs.declared.program.Release.{Release};
ghost use Rattle.som_release_laws.specs.Releasing.{HaveParents, stacked};
ghost use Rattle.std.specs.Prelude.{◌≡◌, ◌≤◌, [], ◌∷◌, ◌++◌, List as Seq, length, map, true};

/// A level whose newer release keeps, above the levels of its own, what it promised above those against
/// which it was compiled, keeps this also where it stands above later levels: where these are compatible
/// with those, and the newest with these.
pub fn level_above_law()
    ensures { (was mid new own newer : Seq Interface) → length was ≡ length mid → length mid ≡ length new →
        FacesLoad (level_classes (was ++ own)) → FacesLoad (level_classes mid) → FacesLoad (level_classes (new ++ newer)) →
        CompatibleLevels was mid → CompatibleLevels (was ++ own) (new ++ newer) → CompatibleLevels mid new →
        CompatibleLevels (mid ++ own) (new ++ newer) }
{}

/// The last releases of the lists of an accepted tower stand each on those below it, can be loaded
/// together, and are compatible with any releases that were chosen one from each list and can stand on one
/// another.
pub fn newest_tower_law()
    ensures stacked { (before : Seq Release) (last : Release) (uppers : Seq (Seq LevelProgram)) (newest : Seq LevelProgram) →
        AcceptedTower (before ++ last ∷ []) uppers → AreNewest newest uppers → AreStacked (interface_of last ∷ []) newest }
    ensures load { (before : Seq Release) (last : Release) (uppers : Seq (Seq LevelProgram)) (newest : Seq LevelProgram) →
        AcceptedTower (before ++ last ∷ []) uppers → AreNewest newest uppers → FacesLoad (level_classes (interfaces_of last newest)) }
    ensures chosen { (before : Seq Release) (last : Release) (uppers : Seq (Seq LevelProgram)) (newest : Seq LevelProgram) →
        AcceptedTower (before ++ last ∷ []) uppers → AreNewest newest uppers →
        (c : Choice (before ++ last ∷ []) uppers) → CompatibleLevels (chosen_interfaces c) (interfaces_of last newest) }
{}

/// Whatever was made against releases of an accepted tower stands on the last of each list: these are
/// compatible with the levels against which it was compiled. So, within the counts, it can be loaded with
/// them, with its main; each class of the lowest has a parent, which the counts of images ask.
pub fn newest_program_law()
    ensures stands { (before : Seq Release) (last : Release) (uppers : Seq (Seq LevelProgram)) (newest : Seq LevelProgram) →
        AcceptedTower (before ++ last ∷ []) uppers → AreNewest newest uppers → (l : LevelProgram) →
        IsMadeAgainst (before ++ last ∷ []) uppers l → StandsOn (interfaces_of last newest) l }
    ensures loads { (before : Seq Release) (last : Release) (uppers : Seq (Seq LevelProgram)) (newest : Seq LevelProgram) →
        AcceptedTower (before ++ last ∷ []) uppers → AreNewest newest uppers → HaveParents (library_classes last) → (l : LevelProgram) →
        IsMadeAgainst (before ++ last ∷ []) uppers l →
        length (stacked (library_classes last) (map by_level newest) ++ (by_level l).own) ≤ MAX_LAID_CLASSES →
        ((c : Class) → Mem c (stacked (library_classes last) (map by_level newest) ++ (by_level l).own) → ClassCounted c.decl) →
        block_counted (by_level l).main ≡ true →
        Loads (stacked (library_classes last) (map by_level newest) ++ (by_level l).own) (by_level l).main }
{}
