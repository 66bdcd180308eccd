//! Which levels can stand together: those below a program that conforms, and those of libraries one above the other.

ghost use Rattle.som_level_laws.specs.Levels.{level_classes};
ghost use Rattle.som_level_programs.specs.ByLevels.{levels_below};
ghost use Rattle.som_level_programs.specs.Towers.{AreStacked, LevelProgram, StandsOn, own_interface};
ghost use Rattle.som_model.specs.Class.{Class, interface_of};
ghost use Rattle.som_model.specs.Classes.{client_classes, interface_classes, library_classes};
ghost use Rattle.som_model.specs.Conforming.{ProgramOk, ReleaseOk};
ghost use Rattle.som_model.specs.Lists.{doubles};
ghost use Rattle.som_model.specs.Loads.{FacesLoad};
ghost use Rattle.som_model.specs.declared.class.ClassFace.{ClassFace};
ghost use Rattle.som_model.specs.declared.program.ClientProgram.{ClientProgram};
ghost use Rattle.som_model.specs.declared.program.Interface.{Interface};
ghost use Rattle.som_model.specs.declared.program.Release.{Release};
ghost use Rattle.som_release_laws.specs.Releasing.{HaveParents, Level, stacked};
ghost use Rattle.std.specs.Prelude.{◌≡◌, ℕ, Bool, [], ◌∷◌, ◌++◌, List as Seq, false, length, map, sum};
ghost use Rattle.std.specs.Str.{bytes_eq};

/// No two classes of the base of a program that conforms have one name, and the faces of the levels below it
/// can stand together, without its own classes above them.
pub fn sound_program_law()
    ensures differ { (p : ClientProgram) → ProgramOk p → HaveParents (interface_classes p.base ++ client_classes p) →
        doubles bytes_eq [] (map (λ (face : ClassFace). face.name) p.base.classes) ≡ [] }
    ensures faces { (p : ClientProgram) → ProgramOk p → HaveParents (interface_classes p.base ++ client_classes p) →
        (sizes : Seq ℕ) (client : Bool) → sum sizes ≡ length p.base.classes →
        FacesLoad (level_classes (levels_below sizes client p.base)) }
{}

/// The faces of a library that conforms and of libraries one above the other over it can stand together.
pub fn tower_faces_law()
    ensures { (r : Release) (ls : Seq LevelProgram) → ReleaseOk r → HaveParents (library_classes r) →
        AreStacked (interface_of r ∷ []) ls → FacesLoad (level_classes (interface_of r ∷ map own_interface ls)) }
{}

/// A library that stands on all libraries of a list can be put above them, and its own classes come last.
pub fn one_more_law()
    ensures stacked { (is : Seq Interface) (ls : Seq LevelProgram) (l : LevelProgram) → AreStacked is ls →
        StandsOn (is ++ map own_interface ls) l → l.client ≡ false → AreStacked is (ls ++ l ∷ []) }
    ensures classes { (news : Seq Class) (levels : Seq Level) (level : Level) →
        stacked news (levels ++ level ∷ []) ≡ stacked news levels ++ level.own }
{}
