//! `Refused`, why texts declare no classes: a broken rule, a passed limit or want of memory.

use som_model::{NoMemory, Text};
use som_verify_classes::Broken;

/// Why texts stand for no classes: the first rule that they break, a limit that they pass, or want of memory.
#[derive(Drop)]
pub enum Refused {
    Rule(Broken),
    Limit { quantity: Text, number: u32 },
    NoMemory,
}

impl From<NoMemory> for Refused {
    ghost use Rattle.std.specs.Prelude.{◌≡◌};
    ghost use Rattle.som_sema_drafts.specs.declared.types.Refused.TheVariants as faults;

    ghost from_gives = { λ _ e. e ≡ faults.NoMemory };

    fn from(_e: NoMemory) -> Refused {
        Refused::NoMemory
    }
}
