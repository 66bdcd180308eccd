//! Turns a release with names to the release of an image.

ghost use Rattle.som_libimage.specs.Limits.{IsWithinLimits};
ghost use Rattle.som_libimage.specs.Naming.{release_named};
ghost use Rattle.som_libimage.specs.Numbering.{release_numbered};
ghost use Rattle.som_libimage.specs.Spelling.{FitsRelease};
ghost use Rattle.som_model.specs.Conforming.{ReleaseOk};
ghost use Rattle.std.specs.Prelude.{◌≡◌, IfOk};

use crate::wire::WireRelease;
use som_image_classes::KERNEL_CLASSES;
use som_image_decode::Directory;
use som_image_encode::{class_names, number_faces, number_parts, number_selects};
use som_model::{NoMemory, Release};
use std::alloc::Global;

/// The release with numbers and slots that a release is named from.
pub(crate) fn number_release(alloc: Global, release: &Release) -> Result<WireRelease, NoMemory>
    requires conforms { ReleaseOk release.now }
    requires within { IsWithinLimits release.now }
    ensures names { IfOk result (λ wire. release_named wire ≡ release.now) }
    ensures fits { IfOk result FitsRelease }
{
    number_all(alloc, release)
}

fn number_all(alloc: Global, release: &Release) -> Result<WireRelease, NoMemory>
    requires conforms { ReleaseOk release.now }
    requires within { IsWithinLimits release.now }
    ensures { IfOk result (λ wire. wire ≡ release_numbered release.now) }
{
    let directory = Directory::of_release(alloc, release)?;
    let names = class_names(alloc, &directory)?;
    let classes = release.classes.as_slice();
    let faces = number_faces(alloc, &names, &directory, classes)?;
    let parts = number_parts(alloc, &names, &directory, classes)?;
    let selects = number_selects(alloc, &names, &directory, KERNEL_CLASSES, classes)?;
    Ok(WireRelease {
        faces,
        parts,
        selects,
    })
}
