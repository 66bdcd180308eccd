//! States that faces with names are spelled as the faces with numbers that they are named from.

ghost use Rattle.som_image_classes.specs.Interfaces.{NamedFrom, NamesDiffer, interface_image};
ghost use Rattle.som_image_classes.specs.NamedClasses.{interface_named};
ghost use Rattle.som_image_classes.specs.SpelledClasses.{FitsFaces};
ghost use Rattle.som_model.specs.declared.program.Interface.{Interface};
ghost use Rattle.som_image_fields.specs.Spelling as wire;
ghost use Rattle.std.specs.Int.{w16};
ghost use Rattle.std.specs.Prelude.{◌≡◌, ℕ, List, Some};

/// The faces that a client is compiled against are spelled as those with numbers that they are named from, where names
/// differ; and whatever interface has a spelling is named from faces with numbers.
pub fn named_faces_are_spelled()
    ensures forth { (faces : _) → FitsFaces faces → NamesDiffer (interface_named faces).classes →
        interface_image (interface_named faces) ≡ Some (wire.counted w16 wire.face faces) }
    ensures back { (i : Interface) (bytes : List ℕ) → interface_image i ≡ Some bytes → NamedFrom i bytes }
{}
