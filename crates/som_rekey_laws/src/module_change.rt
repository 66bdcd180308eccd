//! What a change of modules keeps: keys that are told apart, classes by key, parents, heights, ancestors and descent.

ghost use Rattle.som_model.specs.Ancestors.{anc, descends};
ghost use Rattle.som_model.specs.Class.{Class};
ghost use Rattle.som_model.specs.Classes.{ancestors, class_at, hierarchy, is_a};
ghost use Rattle.som_model.specs.Hierarchy.{Hierarchy};
ghost use Rattle.som_model.specs.Keys.{same_key};
ghost use Rattle.som_model.specs.Resolution.{byname, impl};
ghost use Rattle.som_model.specs.declared.key.ClassKey.{ClassKey};
ghost use Rattle.som_rekey_laws.specs.Alike.{IsAlike};
ghost use Rattle.som_rekey_laws.specs.Apart.{AreNamed, IsApart, Names, is_named};
ghost use Rattle.som_rekey_laws.specs.Rekeying.{ModuleChange, rekey, rekey_class, rekey_classes};
ghost use Rattle.std.specs.Option.{option_map};
ghost use Rattle.std.specs.Prelude.{◌≡◌, Bool, List as Seq, Option, Some, map, true};

/// Of hierarchies that are one but for names, the ancestors are the same but for names, a class descends
/// from another where it did, and the same class answers a method, if bodies and choices go along.
pub fn alike_hierarchies_law<K, L>()
    ensures ancestors { (g : Hierarchy K) (h : Hierarchy L) (rename : K → L) (is_known : K → Bool) →
        IsAlike g h rename is_known → (x : K) → is_known x ≡ true → anc h (rename x) ≡ map rename (anc g x) }
    ensures descent { (g : Hierarchy K) (h : Hierarchy L) (rename : K → L) (is_known : K → Bool) →
        IsAlike g h rename is_known → (x a : K) → is_known x ≡ true → is_known a ≡ true → descends h (rename x) (rename a) ≡ descends g x a }
    ensures answers { (g : Hierarchy K) (h : Hierarchy L) (rename : K → L) (is_known : K → Bool) →
        IsAlike g h rename is_known →
        (has_body : K → Bool) (new_body : L → Bool) (chosen : K → Option K) (new_chosen : L → Option L) →
        ((x : K) → is_known x ≡ true → new_body (rename x) ≡ has_body x) →
        ((x : K) → is_known x ≡ true → new_chosen (rename x) ≡ option_map rename (chosen x)) →
        ((x p : K) → is_known x ≡ true → chosen x ≡ Some p → is_known p ≡ true) →
        (a x : K) → is_known a ≡ true → is_known x ≡ true → impl h new_body new_chosen (rename a) (rename x) ≡ option_map rename (impl g has_body chosen a x) }
    ensures names { (g : Hierarchy K) (h : Hierarchy L) (rename : K → L) (is_known : K → Bool) →
        IsAlike g h rename is_known → (introduces : K → Bool) (new_introduces : L → Bool) →
        ((x : K) → is_known x ≡ true → new_introduces (rename x) ≡ introduces x) →
        (x : K) → is_known x ≡ true → byname h new_introduces (rename x) ≡ option_map rename (byname g introduces x) }
{}

/// The test of keys tells new keys apart where it told the old ones apart.
pub fn rekeyed_key_law()
    ensures { (f : ModuleChange) (names : Names) → IsApart f names → (a b : ClassKey) →
        is_named names a ≡ true → is_named names b ≡ true → same_key (rekey f a) (rekey f b) ≡ same_key a b }
{}

/// A class is found by its new key where it was found by its old one.
pub fn rekeyed_class_law()
    ensures { (f : ModuleChange) (names : Names) (cs : Seq Class) → IsApart f names → AreNamed names cs →
        (k : ClassKey) → is_named names k ≡ true →
        class_at (rekey_classes f cs) (rekey f k) ≡ option_map (rekey_class f) (class_at cs k) }
{}

/// The hierarchy of the classes under new keys is the one that it was but for names.
pub fn rekeyed_hierarchy_law()
    ensures { (f : ModuleChange) (names : Names) (cs : Seq Class) → IsApart f names → AreNamed names cs →
        IsAlike (hierarchy cs) (hierarchy (rekey_classes f cs)) (rekey f) (is_named names) }
{}

/// Under new keys the ancestors are the new keys of the ancestors, and a class descends from those that it
/// descended from.
pub fn rekeyed_ancestors_law()
    ensures ancestors { (f : ModuleChange) (names : Names) (cs : Seq Class) → IsApart f names → AreNamed names cs →
        (k : ClassKey) → is_named names k ≡ true →
        ancestors (rekey_classes f cs) (rekey f k) ≡ map (rekey f) (ancestors cs k) }
    ensures descent { (f : ModuleChange) (names : Names) (cs : Seq Class) → IsApart f names → AreNamed names cs →
        (k a : ClassKey) → is_named names k ≡ true → is_named names a ≡ true →
        is_a (rekey_classes f cs) (rekey f k) (rekey f a) ≡ is_a cs k a }
{}
