//! What a change of modules keeps of classes: what is asked of them, and which bodies break a rule.

ghost use Rattle.som_model.specs.Class.{Class};
ghost use Rattle.som_model.specs.Conforming.{class_typed, class_typed_by, main_typed, main_typed_by};
ghost use Rattle.som_model.specs.Typing.{class_facts, running_facts};
ghost use Rattle.som_model.specs.declared.syntax.Block.{Block};
ghost use Rattle.som_rekey_laws.specs.Apart.{AreInheritedNamed, AreMetaclassesNamed, AreNamed, AreTargetsNamed, IsApart, KeepsKernel, Names};
ghost use Rattle.som_rekey_laws.specs.Rekeying.{ModuleChange, rekey_block, rekey_class, rekey_classes};
ghost use Rattle.som_rekey_rules.specs.NamesAlone.{AreAnswersNamed, AreClassesNamed, AreFacesNamed, IsBlockNamed, IsClassNamed};
ghost use Rattle.std.specs.Prelude.{◌≡◌, List as Seq};

/// Classes whose faces name no others have parents, targets of moves and metaclasses of these names, and what
/// typing asks of them is answered with these names; those that name no others at all override and select
/// methods of these.
pub fn named_classes_law()
    ensures named { (names : Names) (cs : Seq Class) → AreFacesNamed names cs → AreNamed names cs }
    ensures targets { (names : Names) (cs : Seq Class) → AreFacesNamed names cs → AreTargetsNamed names cs }
    ensures metaclasses { (names : Names) (cs : Seq Class) → AreFacesNamed names cs → AreMetaclassesNamed names cs }
    ensures inherited { (names : Names) (cs : Seq Class) → AreClassesNamed names cs → AreInheritedNamed names cs }
    ensures declared { (f : ModuleChange) (names : Names) → KeepsKernel f names → IsApart f names → (cs : Seq Class) →
        AreFacesNamed names cs → AreAnswersNamed names (class_facts cs) }
    ensures running { (f : ModuleChange) (names : Names) → KeepsKernel f names → IsApart f names → (cs : Seq Class) →
        AreFacesNamed names cs → AreAnswersNamed names (running_facts cs) }
{}

/// The bodies of a class, and main, break under new keys the rules that they broke, by declared metaclasses
/// and by those of a run.
pub fn rekeyed_typed_law()
    ensures declared { (f : ModuleChange) (names : Names) → KeepsKernel f names → IsApart f names → (cs : Seq Class) →
        AreFacesNamed names cs → (c : Class) → IsClassNamed names c →
        class_typed (rekey_classes f cs) (rekey_class f c) ≡ class_typed cs c }
    ensures running { (f : ModuleChange) (names : Names) → KeepsKernel f names → IsApart f names → (cs : Seq Class) →
        AreFacesNamed names cs → (c : Class) → IsClassNamed names c →
        class_typed_by (running_facts (rekey_classes f cs)) (rekey_classes f cs) (rekey_class f c) ≡ class_typed_by (running_facts cs) cs c }
    ensures main_declared { (f : ModuleChange) (names : Names) → KeepsKernel f names → IsApart f names → (cs : Seq Class) →
        AreFacesNamed names cs → (main : Block) → IsBlockNamed names main →
        main_typed (rekey_classes f cs) (rekey_block f main) ≡ main_typed cs main }
    ensures main_running { (f : ModuleChange) (names : Names) → KeepsKernel f names → IsApart f names → (cs : Seq Class) →
        AreFacesNamed names cs → (main : Block) → IsBlockNamed names main →
        main_typed_by (running_facts (rekey_classes f cs)) (rekey_block f main) ≡ main_typed_by (running_facts cs) main }
{}
