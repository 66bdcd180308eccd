//! The types of where code stands, in a body or in main, and of why code has no type.

use crate::kind::Kind;
use som_model::NoMemory;
use std::alloc::AllocFailed;

/// Where code stands: in a body of the class at a place, or in main; and what it answers.
#[derive(Clone, Copy)]
pub struct CodePlace {
    pub class: Option<usize>,
    pub result: Kind,
}

/// Why code has no type: the number of the rule that its first wrong construct breaks, or want of memory.
#[derive(Clone, Copy, PartialEq, Eq)]
pub enum TypeFault {
    Rule(u8),
    NoMemory,
}

impl From<u8> for TypeFault {
    ghost use Rattle.std.specs.Prelude.{◌≡◌};
    ghost use Rattle.som_verify_forms.specs.declared.code_place.TypeFault.TheVariants as faults;

    ghost from_gives = { λ rule e. e ≡ faults.Rule rule };

    fn from(rule: u8) -> TypeFault {
        TypeFault::Rule(rule)
    }
}

impl From<NoMemory> for TypeFault {
    ghost use Rattle.std.specs.Prelude.{◌≡◌};
    ghost use Rattle.som_verify_forms.specs.declared.code_place.TypeFault.TheVariants as faults;

    ghost from_gives = { λ _ e. e ≡ faults.NoMemory };

    fn from(_e: NoMemory) -> TypeFault {
        TypeFault::NoMemory
    }
}

impl<T: Drop> From<AllocFailed<T>> for TypeFault {
    ghost use Rattle.std.specs.Prelude.{◌≡◌};
    ghost use Rattle.som_verify_forms.specs.declared.code_place.TypeFault.TheVariants as faults;

    ghost from_gives = { λ _ e. e ≡ faults.NoMemory };

    fn from(_e: AllocFailed<T>) -> TypeFault {
        TypeFault::NoMemory
    }
}
