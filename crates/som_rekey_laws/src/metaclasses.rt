//! What a change of modules keeps of metaclasses and hooks, and of what typing asks of classes.

ghost use Rattle.som_model.specs.Class.{Class};
ghost use Rattle.som_model.specs.Metaclass.{hooks, meta, rank};
ghost use Rattle.som_model.specs.Typing.{class_facts, running_facts};
ghost use Rattle.som_model.specs.declared.key.ClassKey.{ClassKey};
ghost use Rattle.som_rekey_laws.specs.AlikeFacts.{AreFactsAlike};
ghost use Rattle.som_rekey_laws.specs.Apart.{AreInheritedNamed, AreMetaclassesNamed, AreNamed, AreTargetsNamed, IsApart, KeepsKernel, Names, is_named};
ghost use Rattle.som_rekey_laws.specs.Rekeying.{ModuleChange, rekey, rekey_classes};
ghost use Rattle.std.specs.Prelude.{◌≡◌, List as Seq, map, true};

/// The metaclass of a class under its new key is the new key of its metaclass, also where that is made of
/// several, and is of these names too; its rank stays.
pub fn rekeyed_metaclass_law()
    ensures meta { (f : ModuleChange) (names : Names) → KeepsKernel f names → (cs : Seq Class) → IsApart f names →
        AreNamed names cs → AreMetaclassesNamed names cs → (k : ClassKey) → is_named names k ≡ true →
        meta (rekey_classes f cs) (rekey f k) ≡ rekey f (meta cs k) }
    ensures named { (f : ModuleChange) (names : Names) → KeepsKernel f names → (cs : Seq Class) → IsApart f names →
        AreNamed names cs → AreMetaclassesNamed names cs → (k : ClassKey) → is_named names k ≡ true →
        is_named names (meta cs k) ≡ true }
    ensures rank { (f : ModuleChange) (names : Names) → KeepsKernel f names → (cs : Seq Class) → IsApart f names →
        AreNamed names cs → AreMetaclassesNamed names cs → (k : ClassKey) → is_named names k ≡ true →
        rank (rekey_classes f cs) (rekey f k) ≡ rank cs k }
{}

/// The hooks of a metaclass under its new key are the new keys of its hooks, in order.
pub fn rekeyed_hooks_law()
    ensures { (f : ModuleChange) (names : Names) → KeepsKernel f names → (cs : Seq Class) → IsApart f names →
        AreNamed names cs → AreMetaclassesNamed names cs → AreTargetsNamed names cs → AreInheritedNamed names cs →
        (k : ClassKey) → is_named names k ≡ true → hooks (rekey_classes f cs) (rekey f k) ≡ map (rekey f) (hooks cs k) }
{}

/// What typing asks of the classes has the new answers under new keys, by declared metaclasses and by those
/// of a run.
pub fn rekeyed_facts_law()
    ensures declared { (f : ModuleChange) (names : Names) → KeepsKernel f names → (cs : Seq Class) → IsApart f names →
        AreNamed names cs → AreTargetsNamed names cs → AreFactsAlike f names (class_facts cs) (class_facts (rekey_classes f cs)) }
    ensures running { (f : ModuleChange) (names : Names) → KeepsKernel f names → (cs : Seq Class) → IsApart f names →
        AreNamed names cs → AreTargetsNamed names cs → AreMetaclassesNamed names cs →
        AreFactsAlike f names (running_facts cs) (running_facts (rekey_classes f cs)) }
{}
