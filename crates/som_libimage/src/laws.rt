//! States that a conforming release has an image, and that bytes spell one release at most.

ghost use Rattle.som_image_classes.specs.Interfaces.{NamesDiffer};
ghost use Rattle.som_libimage.specs.Libraries.{SpellsLibrary, library_at};
ghost use Rattle.som_libimage.specs.Limits.{IsWithinLimits};
ghost use Rattle.som_model.specs.Class.{interface_of};
ghost use Rattle.som_model.specs.Conforming.{ReleaseOk};
ghost use Rattle.som_model.specs.Images.{library_image};
ghost use Rattle.som_model.specs.declared.program.Release.{Release};
ghost use Rattle.std.specs.Prelude.{◌≡◌, ℕ, List, Ok, Some};

/// In a release that conforms names differ. So the image of a release that conforms is decoded to it and to nothing else, and
/// what decodes to a release that conforms is its image.
pub fn names_of_a_conforming_release_differ()
    ensures { (r : Release) → ReleaseOk r → NamesDiffer (interface_of r).classes }
{}

/// A release that conforms and is within the limits has an image, and what is read from it is that release.
pub fn image_exists()
    ensures { (r : Release) → ReleaseOk r → IsWithinLimits r →
        (bytes : List ℕ) × (library_image r ≡ Some bytes) × (library_at bytes ≡ Ok r) }
{}

/// Bytes spell one release at most.
pub fn bytes_spell_one_release()
    ensures { (r s : Release) (bytes : List ℕ) → SpellsLibrary r bytes → SpellsLibrary s bytes → r ≡ s }
{}

/// Where names differ, bytes spell a release exactly where they are its image; and whatever release has an image is spelled by
/// it.
pub fn spelling_is_the_image()
    ensures forth { (r : Release) (bytes : List ℕ) → NamesDiffer (interface_of r).classes → SpellsLibrary r bytes →
        library_image r ≡ Some bytes }
    ensures back { (r : Release) (bytes : List ℕ) → library_image r ≡ Some bytes → SpellsLibrary r bytes }
{}

/// A release that has an image is within the limits.
pub fn images_are_within_limits()
    ensures { (r : Release) (bytes : List ℕ) → library_image r ≡ Some bytes → IsWithinLimits r }
{}
