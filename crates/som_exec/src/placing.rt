//! The fault of a step, told in the place of the body or of what waits.

ghost use Rattle.som_exec.specs.Came.{in_place};
ghost use Rattle.std.specs.Prelude.{◌≡◌};

use som_interp_loop::Stop;
use som_interp_state::Now;
use som_trace::Place;

/// The answer of a step, of which a fault is in this place.
#[inline(always)]
pub(crate) fn placed(answer: Result<Now, Stop>, place: Place) -> Result<Now, Stop>
    ensures { result ≡ in_place place answer }
{
    match answer {
        Err(Stop::Fault { fault, .. }) => Err(Stop::Fault { fault, at: place }),
        Ok(now) => Ok(now),
        Err(Stop::Spent) => Err(Stop::Spent),
        Err(Stop::SinkFailed) => Err(Stop::SinkFailed),
        Err(Stop::NoMemory) => Err(Stop::NoMemory),
    }
}
