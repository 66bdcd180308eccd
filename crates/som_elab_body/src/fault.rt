//! `BodyFault`, why a body is refused: a broken rule, too many locals or want of memory.

use som_model::NoMemory;
use som_verify_forms::TypeFault;
use std::alloc::AllocFailed;

/// Why a body stands for no block: the number of the rule that its first wrong construct breaks, or more parameters and
/// locals at one point than may be; or want of memory.
#[derive(Clone, Copy, PartialEq, Eq)]
pub enum BodyFault {
    Rule(u8),
    TooManyLocals,
    NoMemory,
}

impl From<TypeFault> for BodyFault {
    ghost use Rattle.std.specs.Prelude.{◌≡◌};
    ghost use Rattle.som_elab_body.specs.BlockCode.{of_type_fault};

    ghost from_gives = { λ fault e. e ≡ of_type_fault fault };

    fn from(fault: TypeFault) -> BodyFault {
        match fault {
            TypeFault::Rule(rule) => BodyFault::Rule(rule),
            TypeFault::NoMemory => BodyFault::NoMemory,
        }
    }
}

impl From<NoMemory> for BodyFault {
    ghost use Rattle.std.specs.Prelude.{◌≡◌};
    ghost use Rattle.som_elab_body.specs.declared.fault.BodyFault.TheVariants as faults;

    ghost from_gives = { λ _ e. e ≡ faults.NoMemory };

    fn from(_e: NoMemory) -> BodyFault {
        BodyFault::NoMemory
    }
}

impl<T: Drop> From<AllocFailed<T>> for BodyFault {
    ghost use Rattle.std.specs.Prelude.{◌≡◌};
    ghost use Rattle.som_elab_body.specs.declared.fault.BodyFault.TheVariants as faults;

    ghost from_gives = { λ _ e. e ≡ faults.NoMemory };

    fn from(_e: AllocFailed<T>) -> BodyFault {
        BodyFault::NoMemory
    }
}
