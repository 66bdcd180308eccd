//! The next instruction of a body obeyed, or the end of its code with a zero value.

ghost use Rattle.som_io.specs.Outside.{Rose};
ghost use Rattle.som_interp_loop.specs.Moving.{Keeps};
ghost use Rattle.som_interp_loop.specs.Scene.{scene};
ghost use Rattle.som_interp_loop.specs.declared.stop.Stop.TheVariants as stops;
ghost use Rattle.som_interp_loop.specs.NextInstruction.{is_call, next_of};
ghost use Rattle.som_interp_body.specs.Obeying.{IsRunning, Obeyed};
ghost use Rattle.std.specs.Prelude.{◌≡◌, ◌≢◌, ◌≤◌, Err, false};

use crate::outcome::Outcome;
use crate::step::obey_in_place;
use som_host::HostTable;
use som_interp_loop::Stop;
use som_interp_state::{Body, Now, Runtime, Task};
use som_io::Sink;
use som_model::Text;
use som_objects::ObjectStore;
use std::alloc::Global;

/// Obeys the next instruction of a body that runs, which makes no call. Past the end of its code the body answers its
/// zero value. What is printed is told to the sink, after the prefix.
pub fn obey<R: Runtime, K: Sink>(
    alloc: Global,
    runtime: &mut R,
    task: &mut Task,
    objects: &mut ObjectStore,
    host: &HostTable,
    prefix: &Text,
    fuel: &mut u32,
    out: &mut K,
    body: Body,
) -> Result<Now, Stop>
    requires running { IsRunning (scene (R.linked runtime.old) (R.known runtime.old) (R.program runtime.old) (R.made runtime.old) objects.old task.old fuel.old) body }
    requires no_call { is_call (next_of (scene (R.linked runtime.old) (R.known runtime.old) (R.program runtime.old) (R.made runtime.old) objects.old task.old fuel.old) body) ≡ false }
    ensures obeyed { Obeyed prefix.now (K.written out.old) (K.written out.new)
        (scene (R.linked runtime.old) (R.known runtime.old) (R.program runtime.old) (R.made runtime.old) objects.old task.old fuel.old)
        (scene (R.linked runtime.new) (R.known runtime.new) (R.program runtime.new) (R.made runtime.new) objects.new task.new fuel.new) body result }
    ensures keeps { Keeps (scene (R.linked runtime.old) (R.known runtime.old) (R.program runtime.old) (R.made runtime.old) objects.old task.old fuel.old)
        (scene (R.linked runtime.new) (R.known runtime.new) (R.program runtime.new) (R.made runtime.new) objects.new task.new fuel.new) }

    ensures later { K.faults out.old ≤ K.faults out.new }
    ensures cause { result ≡ Err stops.SinkFailed → Rose (K.faults out.old) (K.faults out.new) }

    ensures calm_stays { K.calm out.old → K.calm out.new }
    ensures calm_count { K.calm out.old → K.faults out.new ≡ K.faults out.old }
    ensures calm_answer { K.calm out.old → result ≢ Err stops.SinkFailed }
{
    let mut body = body;
    match obey_in_place(
        alloc, runtime, task, objects, host, prefix, fuel, out, &mut body,
    ) {
        Ok(Outcome::GoesOn) => Ok(Now::Running(body)),
        Ok(Outcome::Answers(cell)) => Ok(Now::Answering(cell)),
        Err(stop) => Err(stop),
    }
}
