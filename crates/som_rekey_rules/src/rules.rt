//! What a change of modules keeps of the rules: the same members of classes break them, in the same order.

ghost use Rattle.som_model.specs.Class.{Class};
ghost use Rattle.som_model.specs.Conforming.{class_typed, faces_breach, first_of_members, first_of_names};
ghost use Rattle.som_model.specs.Kernel.{kernel};
ghost use Rattle.som_model.specs.Rules.{s14, s5};
ghost use Rattle.som_rekey_laws.specs.Apart.{IsApart, KeepsKernel, Names};
ghost use Rattle.som_rekey_laws.specs.Rekeying.{ModuleChange, rekey_classes};
ghost use Rattle.som_rekey_rules.specs.NamesAlone.{AreClassesNamed, AreFacesNamed};
ghost use Rattle.std.specs.Prelude.{◌≡◌, ◌++◌, List as Seq, flat_map};

/// Classes that name no others break under new keys the rules that they broke, and the first breach is the
/// one that it was: of the names of classes and what stands above them, of types, of members, of bodies, and
/// of blocks. A breach tells names alone, so it has no key that could change.
pub fn rekeyed_rules_law()
    ensures names { (f : ModuleChange) (names : Names) → KeepsKernel f names → IsApart f names → (cs : Seq Class) →
        AreClassesNamed names cs → first_of_names kernel (rekey_classes f cs) ≡ first_of_names kernel cs }
    ensures types { (f : ModuleChange) (names : Names) → KeepsKernel f names → IsApart f names → (known cs : Seq Class) →
        AreFacesNamed names known → AreClassesNamed names cs →
        flat_map (s5 (kernel ++ rekey_classes f known)) (rekey_classes f cs) ≡ flat_map (s5 (kernel ++ known)) cs }
    ensures members { (f : ModuleChange) (names : Names) → KeepsKernel f names → IsApart f names → (cs : Seq Class) →
        AreClassesNamed names cs → first_of_members kernel (rekey_classes f cs) ≡ first_of_members kernel cs }
    ensures bodies { (f : ModuleChange) (names : Names) → KeepsKernel f names → IsApart f names → (cs : Seq Class) →
        AreClassesNamed names cs → flat_map s14 (rekey_classes f cs) ≡ flat_map s14 cs }
    ensures blocks { (f : ModuleChange) (names : Names) → KeepsKernel f names → IsApart f names → (known cs : Seq Class) →
        AreFacesNamed names known → AreClassesNamed names cs →
        flat_map (class_typed (kernel ++ rekey_classes f known)) (rekey_classes f cs) ≡ flat_map (class_typed (kernel ++ known)) cs }
    ensures faces { (f : ModuleChange) (names : Names) → KeepsKernel f names → IsApart f names → (cs : Seq Class) →
        AreClassesNamed names cs → faces_breach (rekey_classes f cs) ≡ faces_breach cs }
{}
