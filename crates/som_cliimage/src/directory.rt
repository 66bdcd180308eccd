//! Makes the directory of a client image: the kernel's classes, those of the base, and the client's own.

ghost use Rattle.som_cliimage.specs.Naming.{client_directory};
ghost use Rattle.som_cliimage.specs.Numbering.{interface_directory, program_directory};
ghost use Rattle.std.specs.Prelude.{◌≡◌, IfOk};

use som_image_decode::Directory;
use som_image_fields::WireFace;
use som_model::{ClientProgram, Interface, List, Module, NoMemory};
use std::alloc::Global;

/// The kernel's classes, those of the base, and the client's own, as an image has their faces.
pub(crate) fn client_directory(
    alloc: Global,
    base: &List<WireFace>,
    own: &List<WireFace>,
) -> Result<Directory, NoMemory>
    ensures { IfOk result (λ directory. directory ≡ client_directory base.now own.now) }
{
    Directory::of_library(alloc, base)?.with_classes(alloc, Module::Client, own)
}

/// The kernel's classes and those of an interface.
pub(crate) fn interface_directory(
    alloc: Global,
    interface: &Interface,
) -> Result<Directory, NoMemory>
    ensures { IfOk result (λ directory. directory ≡ interface_directory interface.now) }
{
    let mut directory = Directory::of_kernel(alloc)?;
    for face in interface.classes.as_slice() {
        directory = directory.with_face(alloc, Module::Library, face)?;
    }
    Ok(directory)
}

/// The kernel's classes, those that a client was compiled against, and its own.
pub(crate) fn program_directory(
    alloc: Global,
    program: &ClientProgram,
) -> Result<Directory, NoMemory>
    ensures { IfOk result (λ directory. directory ≡ program_directory program.now) }
{
    let mut directory = interface_directory(alloc, &program.base)?;
    for class in program.classes.as_slice() {
        directory = directory.with_face(alloc, Module::Client, &class.face)?;
    }
    Ok(directory)
}
