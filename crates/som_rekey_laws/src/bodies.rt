//! What a change of modules keeps of bodies: which class has which, which parent is selected, and which class answers.

ghost use Rattle.som_model.specs.Class.{Class};
ghost use Rattle.som_model.specs.Implementation.{forwards, held, implementation, selected};
ghost use Rattle.som_model.specs.declared.key.ClassKey.{ClassKey};
ghost use Rattle.som_model.specs.declared.key.MethodRef.{MethodRef};
ghost use Rattle.som_rekey_laws.specs.Apart.{AreInheritedNamed, AreNamed, AreTargetsNamed, IsApart, KeepsKernel, Names, is_named};
ghost use Rattle.som_rekey_laws.specs.Rekeying.{ModuleChange, rekey, rekey_classes, rekey_held, rekey_method};
ghost use Rattle.std.specs.Option.{option_map};
ghost use Rattle.std.specs.Prelude.{◌≡◌, List as Seq, map, true};

/// Under its new key a class has the new body for a method under its new key, a proxy forwards the new
/// methods in order, and the selected parent and the class that answers are the new ones.
pub fn rekeyed_body_law()
    ensures held { (f : ModuleChange) (names : Names) → KeepsKernel f names → (cs : Seq Class) → IsApart f names →
        AreNamed names cs → AreTargetsNamed names cs → AreInheritedNamed names cs →
        (k : ClassKey) (r : MethodRef) → is_named names k ≡ true → is_named names r.class ≡ true →
        held (rekey_classes f cs) (rekey f k) (rekey_method f r) ≡ option_map (rekey_held f) (held cs k r) }
    ensures forwards { (f : ModuleChange) (names : Names) → KeepsKernel f names → (cs : Seq Class) → IsApart f names →
        AreNamed names cs → (k : ClassKey) → is_named names k ≡ true →
        forwards (rekey_classes f cs) (rekey f k) ≡ map (rekey_method f) (forwards cs k) }
    ensures selected { (f : ModuleChange) (names : Names) (cs : Seq Class) → IsApart f names → AreNamed names cs → AreTargetsNamed names cs → AreInheritedNamed names cs →
        (r : MethodRef) → is_named names r.class ≡ true → (k : ClassKey) → is_named names k ≡ true →
        selected (rekey_classes f cs) (rekey_method f r) (rekey f k) ≡ option_map (rekey f) (selected cs r k) }
    ensures implementation { (f : ModuleChange) (names : Names) → KeepsKernel f names → (cs : Seq Class) → IsApart f names →
        AreNamed names cs → AreTargetsNamed names cs → AreInheritedNamed names cs →
        (k : ClassKey) (r : MethodRef) → is_named names k ≡ true → is_named names r.class ≡ true →
        implementation (rekey_classes f cs) (rekey f k) (rekey_method f r) ≡ option_map (rekey f) (implementation cs k r) }
{}
