//! The steps that make a call and invoke its bodies.

ghost use Rattle.som_io.specs.Outside.{Rose};
ghost use Rattle.som_interp_loop.specs.Counted.{Counted};
ghost use Rattle.som_interp_loop.specs.Standing.{IsSomewhere};
ghost use Rattle.som_exec.specs.Came.{Came, CameSilent, IsCall};
ghost use Rattle.som_interp_loop.specs.Scene.{scene};
ghost use Rattle.som_interp_loop.specs.declared.stop.Stop.TheVariants as stops;
ghost use Rattle.som_objects.specs.declared.cell.Cell.TheVariants as cells;
ghost use Rattle.som_interp_invoke.specs.Chosen.{IsInvoking};
ghost use Rattle.som_interp_state.specs.declared.frames.Now.TheVariants as nows;
ghost use Rattle.som_trace.specs.Filters.{shows_of};
ghost use Rattle.std.specs.Prelude.{◌≡◌, ◌≢◌, ◌≤◌, ℕ, Err};

use som_interp_invoke::{invoke, make_call};
use som_interp_loop::Stop;
use som_interp_state::{Call, Frames, Now, Runtime, Task};
use som_io::Sink;
use som_model::Text;
use som_objects::{Cell, ObjectStore};
use som_tables::Steps;
use som_trace::TraceFilter;
use std::alloc::Global;
use std::mem;
use std::sync::ledger::Ledger;

/// A call that has passed its tests is made. What is next then is answered.
pub fn make_next<R: Runtime>(
    runtime: &R,
    task: &mut Task,
    objects: &ObjectStore,
) -> Result<Now, Stop>
    requires somewhere { (f : ℕ) × IsSomewhere (scene (R.linked runtime.now) (R.known runtime.now) (R.program runtime.now) (R.made runtime.now) objects.now task.old f) }
    requires call { IsCall task.old.frames.now }
    ensures { (f : ℕ) → IsSomewhere (scene (R.linked runtime.now) (R.known runtime.now) (R.program runtime.now) (R.made runtime.now) objects.now task.old f)
        → CameSilent (scene (R.linked runtime.now) (R.known runtime.now) (R.program runtime.now) (R.made runtime.now) objects.now task.old f)
        (scene (R.linked runtime.now) (R.known runtime.now) (R.program runtime.now) (R.made runtime.now) objects.now task.new f) result }
{
    let (levels, call) = take_call(&mut task.frames);
    make_call(runtime, objects, levels, call)
}

/// The next body of a call is invoked, or, where none is left, the call answers; where no unit is left, all is as it
/// was. What is next then is answered.
pub fn invoke_next<R: Runtime, K: Sink, L: Ledger>(
    alloc: Global,
    runtime: &mut R,
    task: &mut Task,
    objects: &mut ObjectStore,
    trace: &TraceFilter,
    prefix: &Text,
    fuel: &mut u32,
    out: &mut K,
    steps: &mut Steps<L>,
) -> Result<Now, Stop>
    requires somewhere { IsSomewhere (scene (R.linked runtime.old) (R.known runtime.old) (R.program runtime.old) (R.made runtime.old) objects.old task.old fuel.old) }
    requires invoking { IsInvoking task.old.frames.now }
    ensures came { Came (shows_of trace.now) prefix.now (K.written out.old) (K.written out.new)
        (scene (R.linked runtime.old) (R.known runtime.old) (R.program runtime.old) (R.made runtime.old) objects.old task.old fuel.old)
        (scene (R.linked runtime.new) (R.known runtime.new) (R.program runtime.new) (R.made runtime.new) objects.new task.new fuel.new) result }
    ensures counted { Counted (scene (R.linked runtime.old) (R.known runtime.old) (R.program runtime.old) (R.made runtime.old) objects.old task.old fuel.old) steps.old steps.new }

    ensures later { K.faults out.old ≤ K.faults out.new }
    ensures cause { result ≡ Err stops.SinkFailed → Rose (K.faults out.old) (K.faults out.new) }

    ensures calm_stays { K.calm out.old → K.calm out.new }
    ensures calm_count { K.calm out.old → K.faults out.new ≡ K.faults out.old }
    ensures calm_answer { K.calm out.old → result ≢ Err stops.SinkFailed }
{
    invoke(
        alloc, runtime, task, objects, trace, prefix, fuel, out, steps,
    )
}

/// Takes the call that is made next out of the frames, with the levels that it may go.
#[inline(always)]
pub(crate) fn take_call(frames: &mut Frames) -> (u32, Call)
    requires { IsCall frames.old.now }
    ensures call { frames.old.now ≡ nows.Calling result.0 result.1 }
    ensures left { frames.new ≡ record frames.old { now = nows.Answering cells.Nil } }
{
    match mem::replace(&mut frames.now, Now::Answering(Cell::Nil)) {
        Now::Calling { levels, call } => (levels, call),
        Now::Running(_) | Now::Invoking { .. } | Now::Answering(_) => unreachable!(),
    }
}
