//! The type of why a flat interface isn't known to keep the rules.

use som_model::NoMemory;
use som_verify_classes::Broken;
use std::alloc::AllocFailed;

/// Why the flat interface of levels isn't known to keep the rules: one that a class breaks, with the number of its level.
#[derive(Drop)]
pub enum FlatFault {
    Rule { level: u8, broken: Broken },
    NoMemory,
}

impl From<NoMemory> for FlatFault {
    ghost use Rattle.std.specs.Prelude.{◌≡◌};
    ghost use Rattle.som_flat.specs.declared.breach.FlatFault.TheVariants as faults;

    ghost from_gives = { λ _ e. e ≡ faults.NoMemory };

    fn from(_e: NoMemory) -> FlatFault {
        FlatFault::NoMemory
    }
}

impl<T: Drop> From<AllocFailed<T>> for FlatFault {
    ghost use Rattle.std.specs.Prelude.{◌≡◌};
    ghost use Rattle.som_flat.specs.declared.breach.FlatFault.TheVariants as faults;

    ghost from_gives = { λ _ e. e ≡ faults.NoMemory };

    fn from(_e: AllocFailed<T>) -> FlatFault {
        FlatFault::NoMemory
    }
}
