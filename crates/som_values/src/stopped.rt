//! Why an operator answers no value: a fault of the program, or want of memory.

use som_model::{Fault, NoMemory};

/// Why an operator answers no value: the program is at fault, or there is no memory.
#[derive(Clone, Copy, PartialEq, Eq)]
pub enum Stopped {
    Fault(Fault),
    NoMemory,
}

impl From<NoMemory> for Stopped {
    ghost use Rattle.som_values.specs.declared.stopped.Stopped.TheVariants as stops;
    ghost use Rattle.std.specs.Prelude.{◌≡◌};

    ghost from_gives = { λ _ e. e ≡ stops.NoMemory };

    fn from(_e: NoMemory) -> Stopped {
        Stopped::NoMemory
    }
}

impl From<Fault> for Stopped {
    ghost use Rattle.som_values.specs.declared.stopped.Stopped.TheVariants as stops;
    ghost use Rattle.std.specs.Prelude.{◌≡◌};

    ghost from_gives = { λ f e. e ≡ stops.Fault f };

    fn from(fault: Fault) -> Stopped {
        Stopped::Fault(fault)
    }
}
