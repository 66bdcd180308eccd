//! The law by which an index of names finds the method that a name means.

ghost use Rattle.som_class_loaded.specs.Added.{HaveDistinctEntries, HasClasses, IsMeant, count_to};
ghost use Rattle.som_meta.specs.Numbering.{Numbering, key_at};
ghost use Rattle.som_model.specs.Classes.{ancestors};
ghost use Rattle.som_model.specs.Owner.{introduces};
ghost use Rattle.som_names.specs.Index.{ancestors_at, asked, found};
ghost use Rattle.som_names.specs.declared.named.Named.{Named};
ghost use Rattle.std.specs.Prelude.{◌≡◌, ℕ, List as Seq};

/// Where a class and its ancestors were added as they are among numbered classes, an index finds the token of the method that a name means in the
/// class, the first ancestor's that introduces it, and none exactly where it means none; and it asks the ancestors in order up to that one.
pub fn by_name_law()
    ensures found { (k : Numbering) (index : Seq (ℕ × Named)) (n : ℕ) (name : Seq ℕ) → HaveDistinctEntries k.classes → HasClasses k index n →
        IsMeant k n name (found index n name) }
    ensures asked { (k : Numbering) (index : Seq (ℕ × Named)) (n : ℕ) (name : Seq ℕ) → HaveDistinctEntries k.classes → HasClasses k index n →
        asked index name (ancestors_at index n) ≡ count_to (introduces k.classes name) (ancestors k.classes (key_at k n)) }
{}
