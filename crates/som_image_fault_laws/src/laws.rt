//! Laws of the faults of images, by the images that bytes spell.

ghost use Rattle.som_cliimage.specs.Programs.{SpellsProgram, client_at};
ghost use Rattle.som_image_fault_laws.specs.Stopping.{StopsAt, field_of};
ghost use Rattle.som_image_fields.specs.declared.fault.ImageFault.{ImageFault};
ghost use Rattle.som_image_fields.specs.declared.fault.ImageFault.TheVariants as faults;
ghost use Rattle.som_libimage.specs.Libraries.{SpellsLibrary, library_at};
ghost use Rattle.som_model.specs.Bytes.{AreBytes};
ghost use Rattle.som_model.specs.declared.program.ClientProgram.{ClientProgram};
ghost use Rattle.som_model.specs.declared.program.Release.{Release};
ghost use Rattle.som_towerimage.specs.Reading.{level_at};
ghost use Rattle.som_towerimage.specs.Spelling.{SpellsLevel};
ghost use Rattle.som_towerimage.specs.declared.level.Level.{Level};
ghost use Rattle.std.specs.Prelude.{◌≡◌, ◌<◌, ℕ, List as Seq, length, take, Some, Err};

/// The fault that is told of bytes which are no library image is told of all that begin as they do up to the end of the field
/// at its place, so that no image begins so; and of bytes that end before that field nothing is told but that they end too
/// early. Bytes that end too early do so at their end, and before those that follow an image a whole one stands.
pub fn library_fault_law()
    ensures stops { (bytes : Seq ℕ) (f : ImageFault) (place : ℕ) → library_at bytes ≡ Err f → field_of f ≡ Some place →
        StopsAt library_at SpellsLibrary f bytes place }
    ensures cut { (bytes : Seq ℕ) (place : ℕ) → library_at bytes ≡ Err (faults.Cut place) → place ≡ length bytes }
    ensures trailing { (bytes : Seq ℕ) (place : ℕ) → AreBytes bytes → library_at bytes ≡ Err (faults.Trailing place) →
        (place < length bytes) × (r : Release) × SpellsLibrary r (take place bytes) }
{}

/// So it is with bytes that are no client image.
pub fn client_fault_law()
    ensures stops { (bytes : Seq ℕ) (f : ImageFault) (place : ℕ) → client_at bytes ≡ Err f → field_of f ≡ Some place →
        StopsAt client_at SpellsProgram f bytes place }
    ensures cut { (bytes : Seq ℕ) (place : ℕ) → client_at bytes ≡ Err (faults.Cut place) → place ≡ length bytes }
    ensures trailing { (bytes : Seq ℕ) (place : ℕ) → AreBytes bytes → client_at bytes ≡ Err (faults.Trailing place) →
        (place < length bytes) × (p : ClientProgram) × SpellsProgram p (take place bytes) }
{}

/// So it is with bytes that are no tower image.
pub fn level_fault_law()
    ensures stops { (bytes : Seq ℕ) (f : ImageFault) (place : ℕ) → level_at bytes ≡ Err f → field_of f ≡ Some place →
        StopsAt level_at SpellsLevel f bytes place }
    ensures cut { (bytes : Seq ℕ) (place : ℕ) → level_at bytes ≡ Err (faults.Cut place) → place ≡ length bytes }
    ensures trailing { (bytes : Seq ℕ) (place : ℕ) → AreBytes bytes → level_at bytes ≡ Err (faults.Trailing place) →
        (place < length bytes) × (l : Level) × SpellsLevel l (take place bytes) }
{}
