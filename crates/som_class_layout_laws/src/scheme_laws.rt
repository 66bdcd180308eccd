//! The laws by which the classes of a run can be laid, and what a cell of a laid row is then.

ghost use Rattle.som_class_layout_laws.specs.Laying.{Bodies, IsBody, IsLaid, IsScheme};
ghost use Rattle.som_meta.specs.Numbering.{IsToken, key_at, method_at};
ghost use Rattle.som_model.specs.Ancestors.{Descends};
ghost use Rattle.som_model.specs.Class.{Class};
ghost use Rattle.som_model.specs.Classes.{hierarchy};
ghost use Rattle.som_model.specs.Implementation.{implementation};
ghost use Rattle.som_model.specs.Kernel.{kernel};
ghost use Rattle.som_model.specs.declared.key.ClassKey.{ClassKey};
ghost use Rattle.som_class_layout_laws.specs.Schemes.{CanBeLaid, numbered, scheme_of};
ghost use Rattle.som_tables.specs.Rows.{Added, HasRow, HasToken, inherited};
ghost use Rattle.std.specs.Prelude.{◌≡◌, ◌++◌, ℕ, List as Seq, Option, Some};

/// What laying asks holds of the classes that can be laid: each method has a body where it is introduced, a class with a body for a method
/// descends from the class that introduces it, and who selects a parent for a method selects one that does.
pub fn scheme_law()
    ensures { (cs : Seq Class) (ks : Seq ClassKey) → CanBeLaid cs ks → IsScheme (scheme_of (numbered cs ks)) }
{}

/// So rows that are laid have a token for each method of an ancestor, and the cell is the body of its implementation.
pub fn row_law()
    ensures token { (cs : Seq Class) (ks : Seq ClassKey) → CanBeLaid cs ks → (b : Bodies ClassKey) (rows : Seq (Option (Added ℕ))) →
        IsLaid (scheme_of (numbered cs ks)) b rows → (n : ℕ) (t : ℕ × ℕ) → HasRow rows n → IsToken (numbered cs ks) t →
        Descends (hierarchy (kernel ++ cs)) (key_at (numbered cs ks) n) (method_at (numbered cs ks) t).class → HasToken rows n t }
    ensures body { (cs : Seq Class) (ks : Seq ClassKey) → CanBeLaid cs ks → (b : Bodies ClassKey) (rows : Seq (Option (Added ℕ))) →
        IsLaid (scheme_of (numbered cs ks)) b rows → (n : ℕ) (t : ℕ × ℕ) → HasRow rows n → IsToken (numbered cs ks) t →
        Descends (hierarchy (kernel ++ cs)) (key_at (numbered cs ks) n) (method_at (numbered cs ks) t).class → (c : ℕ) → Some c ≡ inherited rows n t →
        (y : ClassKey) × (implementation (kernel ++ cs) (key_at (numbered cs ks) n) (method_at (numbered cs ks) t) ≡ Some y) × IsBody b c y t }
{}
