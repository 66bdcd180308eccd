//! The law by which two variables of an object have two places.

ghost use Rattle.som_class_table.specs.Loaded.{AreLoaded};
ghost use Rattle.som_meta.specs.Numbering.{Numbering, key_at};
ghost use Rattle.som_model.specs.Ancestors.{Descends};
ghost use Rattle.som_model.specs.Classes.{hierarchy};
ghost use Rattle.som_class_variables.specs.Variables.{IsVariable, place_in};
ghost use Rattle.std.specs.Prelude.{◌≡◌, ℕ};

/// In an object two variables have two places.
pub fn apart_law()
    ensures { (k : Numbering) → AreLoaded k → (n : ℕ) (s t : ℕ × ℕ) → IsVariable k s → IsVariable k t →
        Descends (hierarchy k.classes) (key_at k n) (key_at k s.0) → Descends (hierarchy k.classes) (key_at k n) (key_at k t.0) →
        place_in k.classes (key_at k n) (key_at k s.0) s.1 ≡ place_in k.classes (key_at k n) (key_at k t.0) t.1 → s ≡ t }
{}
