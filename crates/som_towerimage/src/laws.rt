//! States that a level that fits has a tower image, and that bytes spell one level or have a first fault.

ghost use Rattle.som_cliimage.specs.Limits.{IsWithinLimits};
ghost use Rattle.som_cliimage.specs.Programs.{ProgramNamesDiffer};
ghost use Rattle.som_image_fields.specs.declared.fault.ImageFault.{ImageFault};
ghost use Rattle.som_model.specs.Bytes.{AreBytes};
ghost use Rattle.som_model.specs.Conforming.{ProgramOk};
ghost use Rattle.som_towerimage.specs.Reading.{level_at};
ghost use Rattle.som_towerimage.specs.Spelling.{FitsTower, SpellsLevel, tower_image};
ghost use Rattle.som_towerimage.specs.declared.level.Level.{Level};
ghost use Rattle.std.specs.Prelude.{◌≡◌, ℕ, List as Seq, Ok, Err, Some};

/// A level that fits, and whose program conforms and is within the limits of client images, has a tower image, and what is read
/// from it is that level.
pub fn tower_image_exists()
    ensures { (l : Level) → FitsTower l → ProgramOk l.program → IsWithinLimits l.program →
        (bytes : Seq ℕ) × (tower_image l ≡ Some bytes) × SpellsLevel l bytes × (level_at bytes ≡ Ok l) }
{}

/// Bytes spell one level at most, and a level in whose program names differ has one spelling.
pub fn bytes_spell_one_level()
    ensures level { (l m : Level) (bytes : Seq ℕ) → SpellsLevel l bytes → SpellsLevel m bytes → l ≡ m }
    ensures spelling { (l : Level) (x y : Seq ℕ) → ProgramNamesDiffer l.program → SpellsLevel l x → SpellsLevel l y → x ≡ y }
{}

/// What is read is what the bytes spell, and what they spell is read: so either they spell a level or they have a first fault,
/// and never both.
pub fn level_or_fault()
    ensures read { (l : Level) (bytes : Seq ℕ) → AreBytes bytes → level_at bytes ≡ Ok l → SpellsLevel l bytes }
    ensures again { (l : Level) (bytes : Seq ℕ) → SpellsLevel l bytes → level_at bytes ≡ Ok l }
    ensures fault { (f : ImageFault) (bytes : Seq ℕ) → level_at bytes ≡ Err f → (l : Level) → SpellsLevel l bytes → ⊥ }
{}

/// Where names differ, bytes spell a level that fits exactly where they are its tower image; and whatever level that fits has a
/// tower image is spelled by it.
pub fn spelling_is_the_tower_image()
    ensures forth { (l : Level) (bytes : Seq ℕ) → ProgramNamesDiffer l.program → SpellsLevel l bytes → tower_image l ≡ Some bytes }
    ensures back { (l : Level) (bytes : Seq ℕ) → FitsTower l → tower_image l ≡ Some bytes → SpellsLevel l bytes }
{}
