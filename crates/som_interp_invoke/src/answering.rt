//! How a task goes on after an answer, or stops by a fault in the body's place.

ghost use Rattle.som_interp_invoke.specs.Beginning.{answer_at, stopped_at, write_at};
ghost use Rattle.som_trace.specs.declared.running.Place.TheVariants as places;
ghost use Rattle.std.specs.Prelude.{◌≡◌};

use crate::Begun;
use som_interp_loop::Stop;
use som_interp_state::Now;
use som_objects::Cell;
use som_trace::Place;
use som_values::Stopped;

/// A task goes on with what is answered, or has the fault in this place.
pub(crate) fn answered(at: Place, answer: Result<Cell, Stopped>) -> Result<Now, Stop>
    ensures { result ≡ answer_at at answer }
{
    match answer {
        Ok(cell) => Ok(Now::Answering(cell)),
        Err(stopped) => Err(stop_at(at, stopped)),
    }
}

/// A task goes on with nil after what was to be done, or has the fault in this place.
pub(crate) fn done(at: Place, answer: Result<(), Stopped>) -> Result<Now, Stop>
    ensures { result ≡ write_at at answer }
{
    match answer {
        Ok(()) => Ok(Now::Answering(Cell::Nil)),
        Err(stopped) => Err(stop_at(at, stopped)),
    }
}

/// Why a task stops in this place.
pub(crate) fn stop_at(at: Place, stopped: Stopped) -> Stop
    ensures { result ≡ stopped_at at stopped }
{
    match stopped {
        Stopped::Fault(fault) => Stop::Fault { fault, at },
        Stopped::NoMemory => Stop::NoMemory,
    }
}

/// Where a body runs.
pub(crate) fn place_of(begun: &Begun) -> Place
    ensures { result ≡ places.Body begun.now.class begun.now.method }
{
    Place::Body {
        class: begun.class,
        method: begun.method,
    }
}
