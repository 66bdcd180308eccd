//! Calls that a body of the kernel makes, and what waits for their values.

ghost use Rattle.som_interp_invoke.specs.Beginning.{call_at};
ghost use Rattle.std.specs.Prelude.{◌≡◌, ◌++◌, ◌∷◌, [], OnOk};

use crate::answering::stop_at;
use som_interp_loop::Stop;
use som_interp_state::{Call, Now, Waiting};
use som_model::NoMemory;
use som_trace::Place;
use som_values::Stopped;
use std::alloc::AllocError;

/// A call is made that passed its tests, or the task has the fault in this place.
pub(crate) fn called(levels: u32, at: Place, call: Result<Call, Stopped>) -> Result<Now, Stop>
    ensures { result ≡ call_at levels at call }
{
    match call {
        Ok(call) => Ok(Now::Calling { levels, call }),
        Err(stopped) => Err(stop_at(at, stopped)),
    }
}

/// One more waits, the last.
pub(crate) fn wait_for(waiting: &mut Vec<Waiting>, last: Waiting) -> Result<(), NoMemory>
    ensures { OnOk result (waiting.new.items ≡ waiting.old.items ++ last ∷ []) }
{
    match waiting.push(last) {
        Ok(()) => Ok(()),
        Err(e) => Err(AllocError::from(e).into()),
    }
}
