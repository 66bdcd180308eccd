//! The types of the checker: a class with its module, a broken rule, and why a pass fails.

use som_model::{ClassDecl, Module, NoMemory, Text};
use std::alloc::AllocFailed;

/// A class as it is declared, and the module that it stands in.
#[derive(Drop)]
pub struct Declared<'a> {
    pub module: Module,
    pub decl: &'a ClassDecl,
}

/// A rule that is broken, the class, and the member; a member that doesn't apply is `-`.
pub struct Broken {
    pub rule: u8,
    pub class: Text,
    pub member: Text,
}

impl Drop for Broken {
    fn drop(self) {
        let Broken {
            rule: _,
            class,
            member,
        } = self;
        drop(class);
        drop(member);
    }
}

/// Why a release isn't known to keep the rules.
#[derive(Drop)]
pub enum VerifyFault {
    Rule(Broken),
    NoMemory,
}

impl From<NoMemory> for VerifyFault {
    ghost use Rattle.std.specs.Prelude.{◌≡◌};
    ghost use Rattle.som_verify_classes.specs.declared.types.VerifyFault.TheVariants as faults;

    ghost from_gives = { λ _ e. e ≡ faults.NoMemory };

    fn from(_e: NoMemory) -> VerifyFault {
        VerifyFault::NoMemory
    }
}

impl<T: Drop> From<AllocFailed<T>> for VerifyFault {
    ghost use Rattle.std.specs.Prelude.{◌≡◌};
    ghost use Rattle.som_verify_classes.specs.declared.types.VerifyFault.TheVariants as faults;

    ghost from_gives = { λ _ e. e ≡ faults.NoMemory };

    fn from(_e: AllocFailed<T>) -> VerifyFault {
        VerifyFault::NoMemory
    }
}
