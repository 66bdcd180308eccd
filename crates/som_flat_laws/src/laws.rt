//! Laws of the flat interface of levels of libraries: which rules can break there, and that it says what the levels say.

ghost use Rattle.som_flat_laws.specs.Flat.{flat_interface, flat_module, levels_by_owners, sizes_of};
ghost use Rattle.som_flat_laws.specs.Made.{AreMadeLevels, IsMadeOver};
ghost use Rattle.som_level_laws.specs.Levels.{all_levels, level_classes};
ghost use Rattle.som_level_programs.specs.ByLevels.{levels_below, main_by_level, own_by_level};
ghost use Rattle.som_level_programs.specs.Towers.{AreStacked, LevelProgram, StandsOn, own_interface};
ghost use Rattle.som_model.specs.Class.{Class};
ghost use Rattle.som_model.specs.Classes.{ancestors, client_classes, interface_classes};
ghost use Rattle.som_model.specs.Compatible.{release_of, signature};
ghost use Rattle.som_model.specs.Conforming.{ProgramOk, each_after, faces_breach};
ghost use Rattle.som_model.specs.Kernel.{kernel};
ghost use Rattle.som_model.specs.Lists.{Mem, first, or_else};
ghost use Rattle.som_model.specs.Loads.{FacesLoad};
ghost use Rattle.som_model.specs.Owner.{owner};
ghost use Rattle.som_model.specs.Rules.{RuleBreach, s1, s8};
ghost use Rattle.som_model.specs.declared.program.ClientProgram.{ClientProgram};
ghost use Rattle.som_model.specs.declared.program.Interface.{Interface};
ghost use Rattle.som_rekey_laws.specs.Rekeying.{rekey, rekey_method, rekey_sig};
ghost use Rattle.som_release_laws.specs.Releasing.{AreKept, AreLoadable, HaveOtherKeys, HaveParents, IsCompiled};
ghost use Rattle.std.specs.Option.{option_map};
ghost use Rattle.std.specs.Prelude.{◌≡◌, ◌⊎◌, ◌≤◌, ℕ, Bool, [], ◌∷◌, ◌++◌, List as Seq, None, Some, false, flat_map, length, map};

/// The lowest level is a release that breaks no rule by its faces. A level above is a library whose flat
/// program conforms, and that stands on levels which are compatible with those against which it was compiled.
pub fn made_over_law()
    ensures lowest { (i : Interface) → faces_breach (interface_classes i) ≡ None → IsMadeOver [] i }
    ensures level { (below : Seq Interface) (l : LevelProgram) → StandsOn below l → l.client ≡ false → 1 ≤ length below →
        IsMadeOver below (own_interface l) }
    ensures levels { (i : Interface) (ls : Seq LevelProgram) → faces_breach (interface_classes i) ≡ None →
        AreStacked (i ∷ []) ls → AreMadeLevels (i ∷ map own_interface ls) }
{}

/// Levels that were each made over older ones, which those below them keep, can be loaded together.
pub fn made_levels_law()
    ensures { (is : Seq Interface) → AreMadeLevels is → FacesLoad (level_classes is) }
{}

/// Of the flat interface of levels whose faces can be loaded together the first breach is that of S1, which
/// two classes of one name break, or else that of S8, which two ancestors of a class break that introduce one
/// name: no other rule can be broken there.
pub fn flat_breach_law()
    ensures first { (is : Seq Interface) → FacesLoad (level_classes is) → faces_breach (interface_classes (flat_interface is)) ≡
        or_else (first (each_after s1 kernel (interface_classes (flat_interface is))))
        (first (flat_map (s8 (release_of (flat_interface is))) (interface_classes (flat_interface is)))) }
    ensures loaded { (is : Seq Interface) → FacesLoad (level_classes is) → (b : RuleBreach) →
        faces_breach (interface_classes (flat_interface is)) ≡ Some b → (b.rule ≡ 1) ⊎ (b.rule ≡ 8) }
    ensures made { (is : Seq Interface) → AreMadeLevels is → (b : RuleBreach) →
        faces_breach (interface_classes (flat_interface is)) ≡ Some b → (b.rule ≡ 1) ⊎ (b.rule ≡ 8) }
{}

/// The classes of levels keep all that they promise where each moved entry names the class of its owner, and
/// these keep all that the levels promise: so what is compatible with the one is with the other.
pub fn owners_kept_law()
    ensures kept { (is : Seq Interface) → FacesLoad (level_classes is) → AreKept (level_classes is) (levels_by_owners is) }
    ensures keeps { (is : Seq Interface) → FacesLoad (level_classes is) → AreKept (levels_by_owners is) (level_classes is) }
    ensures load { (is : Seq Interface) → FacesLoad (level_classes is) → FacesLoad (levels_by_owners is) }
{}

/// Where the flat interface breaks no rule, it says of the ancestors of each class, of the owners of its
/// methods and of their signatures what the levels say, in flat keys.
pub fn flat_kept_law()
    ensures ancestors { (is : Seq Interface) → FacesLoad (level_classes is) → faces_breach (interface_classes (flat_interface is)) ≡ None →
        (c : Class) → Mem c (all_levels is) →
        ancestors (release_of (flat_interface is)) (rekey flat_module c.key) ≡ map (rekey flat_module) (ancestors (all_levels is) c.key) }
    ensures owners { (is : Seq Interface) → FacesLoad (level_classes is) → faces_breach (interface_classes (flat_interface is)) ≡ None →
        (c : Class) (name : Seq ℕ) → Mem c (all_levels is) →
        owner (release_of (flat_interface is)) (rekey_method flat_module (record { class = c.key; name = name })) ≡
        rekey_method flat_module (owner (all_levels is) (record { class = c.key; name = name })) }
    ensures signatures { (is : Seq Interface) → FacesLoad (level_classes is) → faces_breach (interface_classes (flat_interface is)) ≡ None →
        (c : Class) (name : Seq ℕ) → Mem c (all_levels is) →
        signature (release_of (flat_interface is)) (rekey flat_module c.key) name ≡ option_map (rekey_sig flat_module) (signature (all_levels is) c.key name) }
{}

/// A program that conforms and was compiled against the flat interface of levels was, by levels, compiled
/// against these, where each moved entry names the class of its owner. What keeps all that the levels
/// promise keeps what the program was compiled against.
pub fn flat_program_law()
    ensures compiled { (is : Seq Interface) (p : ClientProgram) (client : Bool) → FacesLoad (level_classes is) →
        p.base ≡ flat_interface is → ProgramOk p → HaveParents (interface_classes p.base ++ client_classes p) →
        IsCompiled (levels_by_owners is) (own_by_level (sizes_of is) client p) (main_by_level (sizes_of is) client p) }
    ensures below { (is : Seq Interface) (p : ClientProgram) (client : Bool) → FacesLoad (level_classes is) →
        p.base ≡ flat_interface is → ProgramOk p → HaveParents (interface_classes p.base ++ client_classes p) →
        level_classes (levels_below (sizes_of is) client p.base) ≡ levels_by_owners is }
    ensures kept { (is : Seq Interface) (news : Seq Class) → FacesLoad (level_classes is) → FacesLoad news →
        AreKept (level_classes is) news → AreKept (levels_by_owners is) news }
    ensures loadable { (is : Seq Interface) (p : ClientProgram) (client : Bool) (news : Seq Class) → FacesLoad (level_classes is) →
        p.base ≡ flat_interface is → ProgramOk p → HaveParents (interface_classes p.base ++ client_classes p) →
        AreLoadable news → AreKept (level_classes is) news → HaveOtherKeys news (own_by_level (sizes_of is) client p) →
        AreLoadable (news ++ own_by_level (sizes_of is) client p) }
{}
