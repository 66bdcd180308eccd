//! Checks the rules on faces (S1 to S10) for the classes of one library.

ghost use Rattle.som_verify_classes.specs.Faces.{faces_breach};
ghost use Rattle.som_verify_classes.specs.Told.{Tells, of_release};

use crate::classes::classes_hold;
use som_model::{ClassDecl, Module};
use som_verify_classes::VerifyFault;
use som_verify_parents::declare;
use std::alloc::Global;

/// The rules S1 to S10, which look at no body.
pub fn faces_ok(alloc: Global, classes: &[ClassDecl]) -> Result<(), VerifyFault>
    ensures { Tells (faces_breach (of_release classes.now)) result }
{
    let declared = declare(Vec::new(alloc), Module::Library, classes)?;
    let _ancestors = classes_hold(alloc, &declared, 0)?;
    Ok(())
}
