//! What a change of modules keeps of methods: entries, owners, signatures and what a name means.

ghost use Rattle.som_model.specs.Class.{Class};
ghost use Rattle.som_model.specs.Classes.{hierarchy};
ghost use Rattle.som_model.specs.Owner.{entry_at, introduced_by, introduces, owner, sig_of};
ghost use Rattle.som_model.specs.Resolution.{byname};
ghost use Rattle.som_model.specs.declared.key.ClassKey.{ClassKey};
ghost use Rattle.som_model.specs.declared.key.MethodRef.{MethodRef};
ghost use Rattle.som_rekey_laws.specs.Apart.{AreNamed, AreTargetsNamed, IsApart, Names, is_named};
ghost use Rattle.som_rekey_laws.specs.Rekeying.{ModuleChange, rekey, rekey_classes, rekey_entry, rekey_method, rekey_sig};
ghost use Rattle.std.specs.Option.{option_map};
ghost use Rattle.std.specs.Prelude.{◌≡◌, ℕ, List as Seq, true};

/// Under its new key a class has the new entry for each name, introduces the names that it did, and a name
/// means the method that it meant.
pub fn rekeyed_entry_law()
    ensures entry { (f : ModuleChange) (names : Names) (cs : Seq Class) → IsApart f names → AreNamed names cs →
        (k : ClassKey) (name : Seq ℕ) → is_named names k ≡ true →
        entry_at (rekey_classes f cs) (rekey f k) name ≡ option_map (rekey_entry f) (entry_at cs k name) }
    ensures introduced { (f : ModuleChange) (names : Names) (cs : Seq Class) → IsApart f names → AreNamed names cs →
        (k : ClassKey) → is_named names k ≡ true → introduced_by (rekey_classes f cs) (rekey f k) ≡ introduced_by cs k }
    ensures by_name { (f : ModuleChange) (names : Names) (cs : Seq Class) → IsApart f names → AreNamed names cs →
        (name : Seq ℕ) (k : ClassKey) → is_named names k ≡ true →
        byname (hierarchy (rekey_classes f cs)) (introduces (rekey_classes f cs) name) (rekey f k) ≡
        option_map (rekey f) (byname (hierarchy cs) (introduces cs name) k) }
{}

/// The owner of a method under its new key is the new key of its owner, however many moves away, and its
/// signature there is the new one.
pub fn rekeyed_owner_law()
    ensures owner { (f : ModuleChange) (names : Names) (cs : Seq Class) → IsApart f names → AreNamed names cs → AreTargetsNamed names cs →
        (r : MethodRef) → is_named names r.class ≡ true →
        owner (rekey_classes f cs) (rekey_method f r) ≡ rekey_method f (owner cs r) }
    ensures named { (f : ModuleChange) (names : Names) (cs : Seq Class) → IsApart f names → AreNamed names cs → AreTargetsNamed names cs →
        (r : MethodRef) → is_named names r.class ≡ true → is_named names (owner cs r).class ≡ true }
    ensures signature { (f : ModuleChange) (names : Names) (cs : Seq Class) → IsApart f names → AreNamed names cs →
        (r : MethodRef) → is_named names r.class ≡ true →
        sig_of (rekey_classes f cs) (rekey_method f r) ≡ option_map (rekey_sig f) (sig_of cs r) }
    ensures of_owner { (f : ModuleChange) (names : Names) (cs : Seq Class) → IsApart f names → AreNamed names cs → AreTargetsNamed names cs →
        (r : MethodRef) → is_named names r.class ≡ true →
        sig_of (rekey_classes f cs) (owner (rekey_classes f cs) (rekey_method f r)) ≡ option_map (rekey_sig f) (sig_of cs (owner cs r)) }
{}
