//! Puts together the program of what a client image holds.

ghost use Rattle.som_cliimage.specs.NamedReading.{program_of};
ghost use Rattle.som_cliimage.specs.Naming.{client_directory};
ghost use Rattle.som_cliimage.specs.Reading.{client_ranges};
ghost use Rattle.som_cliimage.specs.Spelling.{FitsOwnFaces};
ghost use Rattle.som_image_classes.specs.NamedClasses.{AreSelectsOf};
ghost use Rattle.som_image_classes.specs.SpelledClasses.{FitsFaces};
ghost use Rattle.std.specs.Prelude.{◌≡◌, length, IfOk};

use som_image_classes::{KERNEL_CLASSES, NamedPart, name_classes, name_interface};
use som_image_decode::Directory;
use som_image_fields::WireFace;
use som_model::{Block, ClientProgram, List, NoMemory};
use som_wire::WireSelects;
use std::alloc::Global;

/// The program that faces and selects with numbers make with parts and a main that have names.
pub(crate) fn name_program(
    alloc: Global,
    directory: &Directory,
    base: &List<WireFace>,
    own: &List<WireFace>,
    parts: List<NamedPart>,
    selects: &List<WireSelects>,
    main: Block,
) -> Result<ClientProgram, NoMemory>
    requires directory { directory.now ≡ client_directory base.now own.now }
    requires base { FitsFaces base.now }
    requires own { FitsOwnFaces base.now own.now }
    requires parts { length parts ≡ length own.now }
    requires selects { AreSelectsOf (client_ranges base.now own.now) selects.now }
    ensures { IfOk result (λ named. named ≡ program_of base.now own.now parts selects.now main) }
{
    let first = base.len() as u16 + KERNEL_CLASSES;
    Ok(ClientProgram {
        base: name_interface(alloc, base)?,
        classes: name_classes(alloc, directory, first, own, parts, selects)?,
        main,
    })
}
