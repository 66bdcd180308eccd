//! The line of a fault at the end of a run.

ghost use Rattle.som_io.specs.Outside.{Rose, ShowsAll, ShowsFront};
ghost use Rattle.som_semantics.specs.Runs.{Faulted};
ghost use Rattle.som_trace.specs.Places.{IsPlace, place_of, running_in};
ghost use Rattle.som_trace.specs.Told.{end_text};
ghost use Rattle.som_trace.specs.declared.line.Untold.TheVariants as untold;
ghost use Rattle.std.specs.Prelude.{◌≡◌, ◌≢◌, ◌≤◌, Err, IfOk, OnOk};

use som_interp_state::Runtime;
use som_io::Sink;
use som_model::{Fault, Text};
use som_trace::{Place, Running, Untold, running_at, tell_fault};
use std::alloc::Global;

/// Tells the line of a fault in a place, and names the place.
pub(crate) fn tell_at<R: Runtime, K: Sink>(
    alloc: Global,
    runtime: &R,
    prefix: &Text,
    out: &mut K,
    fault: Fault,
    at: Place,
) -> Result<Running, Untold>
    requires { IsPlace (R.known runtime.now) at }
    ensures named { IfOk result (λ running. running ≡ running_in (place_of (R.known runtime.now) at)) }
    ensures tells { OnOk result (ShowsAll (K.written out.old) (K.written out.new) (end_text prefix.now (Faulted fault (place_of (R.known runtime.now) at)))) }
    ensures front { ShowsFront (K.written out.old) (K.written out.new) (end_text prefix.now (Faulted fault (place_of (R.known runtime.now) at))) }

    ensures later { K.faults out.old ≤ K.faults out.new }
    ensures cause { result ≡ Err untold.SinkFailed → Rose (K.faults out.old) (K.faults out.new) }

    ensures calm_stays { K.calm out.old → K.calm out.new }
    ensures calm_count { K.calm out.old → K.faults out.new ≡ K.faults out.old }
    ensures calm_answer { K.calm out.old → result ≢ Err untold.SinkFailed }
{
    let running = running_at(alloc, runtime, at)?;
    tell_fault(alloc, out, prefix, fault, &running)?;
    Ok(running)
}
