//! The error of a pass as the refusal that is answered.

ghost use Rattle.som_sema_drafts.specs.Refusals.{refused_by};
ghost use Rattle.std.specs.Prelude.{◌≡◌};

use crate::types::Refused;
use som_verify_classes::VerifyFault;

/// The fault of a pass as a refusal: a breach stays that breach, want of memory stays that, and no limit comes of it.
pub fn refused(fault: VerifyFault) -> Refused
    ensures { result ≡ refused_by fault }
{
    match fault {
        VerifyFault::Rule(broken) => Refused::Rule(broken),
        VerifyFault::NoMemory => Refused::NoMemory,
    }
}
