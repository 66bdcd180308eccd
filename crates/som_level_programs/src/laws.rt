//! What naming by levels does to flat programs.

ghost use Rattle.som_level_laws.specs.Levels.{all_levels, level_classes};
ghost use Rattle.som_level_programs.specs.ByLevels.{flat_names, level_change, levels_below, main_by_level, own_by_level};
ghost use Rattle.som_model.specs.Class.{Class};
ghost use Rattle.som_model.specs.Classes.{client_classes, interface_classes};
ghost use Rattle.som_model.specs.Conforming.{ProgramOk, all_of_program};
ghost use Rattle.som_model.specs.Lists.{doubles};
ghost use Rattle.som_model.specs.Loads.{IsOrdered};
ghost use Rattle.som_model.specs.declared.class.ClassFace.{ClassFace};
ghost use Rattle.som_model.specs.declared.program.ClientProgram.{ClientProgram};
ghost use Rattle.som_model.specs.declared.program.Interface.{Interface};
ghost use Rattle.som_rekey_laws.specs.Apart.{IsApart, KeepsKernel};
ghost use Rattle.som_rekey_laws.specs.Rekeying.{rekey_classes};
ghost use Rattle.som_release_laws.specs.Releasing.{HaveOtherKeys, HaveParents, IsCompiled};
ghost use Rattle.std.specs.Prelude.{◌≡◌, ◌≤◌, ℕ, Bool, [], ◌++◌, List as Seq, length, map, sum};
ghost use Rattle.std.specs.Str.{bytes_eq};

/// Naming by levels gives no two flat names one key, also where a client's class has the name of one of the
/// base, and leaves the kernel's names. Nothing is asked of the sizes or of the base.
pub fn level_change_law()
    ensures apart { (sizes : Seq ℕ) (client : Bool) (base : Interface) → IsApart (level_change sizes client base) flat_names }
    ensures kernel { (sizes : Seq ℕ) (client : Bool) (base : Interface) → KeepsKernel (level_change sizes client base) flat_names }
{}

/// Where the sizes are those of the base, and no two of its classes have one name, the base by levels is the
/// classes of the levels below. A program's own classes by levels stand above them, and have the keys of none
/// of as many levels.
pub fn level_names_law()
    ensures base { (sizes : Seq ℕ) (client : Bool) (base : Interface) → sum sizes ≡ length base.classes →
        doubles bytes_eq [] (map (λ (face : ClassFace). face.name) base.classes) ≡ [] →
        rekey_classes (level_change sizes client base) (interface_classes base) ≡ level_classes (levels_below sizes client base) }
    ensures own { (sizes : Seq ℕ) (client : Bool) (p : ClientProgram) →
        rekey_classes (level_change sizes client p.base) (client_classes p) ≡ own_by_level sizes client p }
    ensures keys { (is : Seq Interface) (sizes : Seq ℕ) (client : Bool) (p : ClientProgram) → length is ≤ length sizes →
        HaveOtherKeys (level_classes is) (own_by_level sizes client p) }
    ensures differ { (base : Interface) (own : Seq Class) → IsOrdered (interface_classes base ++ own) →
        doubles bytes_eq [] (map (λ (face : ClassFace). face.name) base.classes) ≡ [] }
{}

/// The classes of a flat program by levels are the kernel's, those of the levels below, and its own. A
/// program that conforms, and whose classes have parents, which the counts of images ask, was by levels
/// compiled against the faces of the levels below it.
pub fn level_program_law()
    ensures classes { (p : ClientProgram) (sizes : Seq ℕ) (client : Bool) → sum sizes ≡ length p.base.classes →
        IsOrdered (interface_classes p.base ++ client_classes p) →
        rekey_classes (level_change sizes client p.base) (all_of_program p) ≡
        all_levels (levels_below sizes client p.base) ++ own_by_level sizes client p }
    ensures compiled { (p : ClientProgram) (sizes : Seq ℕ) (client : Bool) → sum sizes ≡ length p.base.classes →
        ProgramOk p → HaveParents (interface_classes p.base ++ client_classes p) →
        IsCompiled (level_classes (levels_below sizes client p.base)) (own_by_level sizes client p) (main_by_level sizes client p) }
{}
