//! States that a conforming program has an image, and that bytes spell one program at most.

ghost use Rattle.som_cliimage.specs.Limits.{IsWithinLimits};
ghost use Rattle.som_cliimage.specs.Programs.{ProgramNamesDiffer, SpellsProgram, client_at};
ghost use Rattle.som_model.specs.Conforming.{ProgramOk};
ghost use Rattle.som_model.specs.Images.{client_image};
ghost use Rattle.som_model.specs.declared.program.ClientProgram.{ClientProgram};
ghost use Rattle.std.specs.Prelude.{◌≡◌, ℕ, List, Ok, Some};

/// In a program that conforms names differ. So the image of a program that conforms is decoded to it and to nothing else, and
/// what decodes to a program that conforms is its image.
pub fn names_of_a_conforming_program_differ()
    ensures { (p : ClientProgram) → ProgramOk p → ProgramNamesDiffer p }
{}

/// A program that conforms and is within the limits has an image, and what is read from it is that program.
pub fn image_exists()
    ensures { (p : ClientProgram) → ProgramOk p → IsWithinLimits p →
        (bytes : List ℕ) × (client_image p ≡ Some bytes) × (client_at bytes ≡ Ok p) }
{}

/// Bytes spell one program at most.
pub fn bytes_spell_one_program()
    ensures { (p q : ClientProgram) (bytes : List ℕ) → SpellsProgram p bytes → SpellsProgram q bytes → p ≡ q }
{}

/// Where names differ, bytes spell a program exactly where they are its image; and whatever program has an image is spelled by
/// it.
pub fn spelling_is_the_image()
    ensures forth { (p : ClientProgram) (bytes : List ℕ) → ProgramNamesDiffer p → SpellsProgram p bytes →
        client_image p ≡ Some bytes }
    ensures back { (p : ClientProgram) (bytes : List ℕ) → client_image p ≡ Some bytes → SpellsProgram p bytes }
{}

/// A program that has an image is within the limits.
pub fn images_are_within_limits()
    ensures { (p : ClientProgram) (bytes : List ℕ) → client_image p ≡ Some bytes → IsWithinLimits p }
{}
