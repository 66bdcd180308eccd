//! Why a task stops: a fault in a place, no fuel, a sink that failed, or want of memory.

use som_model::{Fault, NoMemory};
use som_trace::{Place, Untold};
use std::alloc::AllocError;

/// Why a task doesn't go on: a fault of the program at a place, no fuel for the next unit, or want of a sink or of memory.
#[derive(Clone, Copy)]
pub enum Stop {
    Fault { fault: Fault, at: Place },
    Spent,
    SinkFailed,
    NoMemory,
}

impl From<NoMemory> for Stop {
    ghost use Rattle.som_interp_loop.specs.declared.stop.Stop.TheVariants as stops;
    ghost use Rattle.std.specs.Prelude.{◌≡◌};

    ghost from_gives = { λ _ e. e ≡ stops.NoMemory };

    fn from(_e: NoMemory) -> Stop {
        Stop::NoMemory
    }
}

impl From<AllocError> for Stop {
    ghost use Rattle.som_interp_loop.specs.declared.stop.Stop.TheVariants as stops;
    ghost use Rattle.std.specs.Prelude.{◌≡◌};

    ghost from_gives = { λ _ e. e ≡ stops.NoMemory };

    fn from(_e: AllocError) -> Stop {
        Stop::NoMemory
    }
}

impl From<Untold> for Stop {
    ghost use Rattle.som_interp_loop.specs.declared.stop.Stop.TheVariants as stops;
    ghost use Rattle.som_trace.specs.declared.line.Untold.TheVariants as untold;
    ghost use Rattle.std.specs.Prelude.{◌≡◌};

    ghost from_gives = { λ cause e. (cause ≡ untold.SinkFailed → e ≡ stops.SinkFailed) × (cause ≡ untold.NoMemory → e ≡ stops.NoMemory) };

    fn from(cause: Untold) -> Stop {
        match cause {
            Untold::SinkFailed => Stop::SinkFailed,
            Untold::NoMemory => Stop::NoMemory,
        }
    }
}
