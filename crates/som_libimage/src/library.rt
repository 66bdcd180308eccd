//! The decoder and the encoder of library images, between bytes and a release with names.

ghost use Rattle.som_image_classes.specs.Interfaces.{NamesDiffer};
ghost use Rattle.som_libimage.specs.Libraries.{SpellsLibrary, library_at};
ghost use Rattle.som_libimage.specs.Limits.{IsWithinLimits};
ghost use Rattle.som_model.specs.Class.{interface_of};
ghost use Rattle.som_model.specs.Conforming.{ReleaseOk};
ghost use Rattle.som_model.specs.Images.{library_image};
ghost use Rattle.som_image_fields.specs.Fields.{Gives};
ghost use Rattle.std.specs.Prelude.{◌≡◌, Some, Ok, IfOk};

use crate::numbered::number_release;
use crate::release::{read_release, write_release};
use som_image_fields::{EncodeFault, ImageFault};
use som_model::{List, Release};
use std::alloc::Global;

/// Reads a library image: the one release that the bytes spell, and else the first fault. An image in which a name stands twice
/// is read too, since rules on names are asked of what was read; such a release has no image, or another one.
pub fn decode(alloc: Global, bytes: &List<u8>) -> Result<Release, ImageFault>
    ensures found { IfOk result (λ r. NamesDiffer (interface_of r).classes → library_image r ≡ Some bytes.now) }
    ensures spelled { IfOk result (λ r. SpellsLibrary r bytes.now) }
    ensures within { IfOk result IsWithinLimits }
    ensures only { (r : _) → library_image r ≡ Some bytes.now → Gives result (Ok r) }
    ensures only_spelled { (r : _) → SpellsLibrary r bytes.now → Gives result (Ok r) }
    ensures exact { Gives result (library_at bytes.now) }
{
    let _all = bytes.as_bytes();
    read_release(alloc, bytes)
}

/// Writes the library image of a release. `decode` reads it back: it answers the release, unless memory runs out.
pub fn encode(alloc: Global, release: &Release) -> Result<List<u8>, EncodeFault>
    requires conforms { ReleaseOk release.now }
    requires within { IsWithinLimits release.now }
    ensures image { IfOk result (λ bytes. library_image release.now ≡ Some bytes) }
    ensures read_back { IfOk result (λ bytes. library_at bytes ≡ Ok release.now) }
{
    let wire = number_release(alloc, release)?;
    let image = write_release(alloc, &wire)?;
    Ok(image)
}
