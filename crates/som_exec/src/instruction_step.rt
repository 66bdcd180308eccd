//! The step of an instruction without a call.

ghost use Rattle.som_io.specs.Outside.{Rose};
ghost use Rattle.som_interp_loop.specs.Standing.{IsSomewhere};
ghost use Rattle.som_exec.specs.Came.{Came, IsBody, IsWithoutCall, with_next};
ghost use Rattle.som_semantics.specs.Runs.{Ends, Spent};
ghost use Rattle.som_semantics.specs.State.{State};
ghost use Rattle.som_machine_laws.specs.Frames.{Waiting};
ghost use Rattle.som_interp_loop.specs.Scene.{scene};
ghost use Rattle.som_interp_loop.specs.declared.stop.Stop.TheVariants as stops;
ghost use Rattle.som_interp_loop.specs.NextInstruction.{Runs, act_of};
ghost use Rattle.som_objects.specs.declared.cell.Cell.TheVariants as cells;
ghost use Rattle.som_interp_state.specs.declared.body.Body.{Body as Runner};
ghost use Rattle.som_interp_state.specs.declared.frames.Now.TheVariants as nows;
ghost use Rattle.std.specs.Prelude.{◌≡◌, ◌≢◌, ◌≤◌, ℕ, Bool, List, Err};

use crate::placing::placed;
use som_host::HostTable;
use som_interp_body::{is_spent, obey};
use som_interp_loop::Stop;
use som_interp_state::{Body, Frames, Now, Runtime, Task};
use som_io::Sink;
use som_model::Text;
use som_objects::{Cell, ObjectStore};
use std::alloc::Global;
use std::mem;

/// The next instruction of a body that runs, which makes no call, is obeyed; where no unit is left for it, all is as it
/// was. What is next then is answered.
pub fn obey_next<R: Runtime, K: Sink>(
    alloc: Global,
    runtime: &mut R,
    task: &mut Task,
    objects: &mut ObjectStore,
    host: &HostTable,
    prefix: &Text,
    fuel: &mut u32,
    out: &mut K,
) -> Result<Now, Stop>
    requires somewhere { IsSomewhere (scene (R.linked runtime.old) (R.known runtime.old) (R.program runtime.old) (R.made runtime.old) objects.old task.old fuel.old) }
    requires no_call { IsWithoutCall task.old }
    ensures came { (shows : List ℕ → Bool) → Came shows prefix.now (K.written out.old) (K.written out.new)
        (scene (R.linked runtime.old) (R.known runtime.old) (R.program runtime.old) (R.made runtime.old) objects.old task.old fuel.old)
        (scene (R.linked runtime.new) (R.known runtime.new) (R.program runtime.new) (R.made runtime.new) objects.new task.new fuel.new) result }

    ensures later { K.faults out.old ≤ K.faults out.new }
    ensures cause { result ≡ Err stops.SinkFailed → Rose (K.faults out.old) (K.faults out.new) }

    ensures calm_stays { K.calm out.old → K.calm out.new }
    ensures calm_count { K.calm out.old → K.faults out.new ≡ K.faults out.old }
    ensures calm_answer { K.calm out.old → result ≢ Err stops.SinkFailed }
{
    if is_spent(&*runtime, &*task, &*objects, *fuel, running(&task.frames)) {
        return Err(Stop::Spent);
    }
    obey_taken(alloc, runtime, task, objects, host, prefix, fuel, out)
}

// The instruction is obeyed, where a unit is left for it.
fn obey_taken<R: Runtime, K: Sink>(
    alloc: Global,
    runtime: &mut R,
    task: &mut Task,
    objects: &mut ObjectStore,
    host: &HostTable,
    prefix: &Text,
    fuel: &mut u32,
    out: &mut K,
) -> Result<Now, Stop>
    requires somewhere { IsSomewhere (scene (R.linked runtime.old) (R.known runtime.old) (R.program runtime.old) (R.made runtime.old) objects.old task.old fuel.old) }
    requires no_call { IsWithoutCall task.old }
    requires unit { (b : Runner) (ws : List Waiting) (s : State) → task.old.frames.now ≡ nows.Running b
        → Runs (scene (R.linked runtime.old) (R.known runtime.old) (R.program runtime.old) (R.made runtime.old) objects.old task.old fuel.old) b s.heap ws → s.fuel ≡ fuel.old
        → (act_of (scene (R.linked runtime.old) (R.known runtime.old) (R.program runtime.old) (R.made runtime.old) objects.old task.old fuel.old) b ws).does s ≢ Ends Spent s }
    ensures came { (shows : List ℕ → Bool) → Came shows prefix.now (K.written out.old) (K.written out.new)
        (scene (R.linked runtime.old) (R.known runtime.old) (R.program runtime.old) (R.made runtime.old) objects.old task.old fuel.old)
        (scene (R.linked runtime.new) (R.known runtime.new) (R.program runtime.new) (R.made runtime.new) objects.new task.new fuel.new) result }

    ensures later { K.faults out.old ≤ K.faults out.new }
    ensures cause { result ≡ Err stops.SinkFailed → Rose (K.faults out.old) (K.faults out.new) }

    ensures calm_stays { K.calm out.old → K.calm out.new }
    ensures calm_count { K.calm out.old → K.faults out.new ≡ K.faults out.old }
    ensures calm_answer { K.calm out.old → result ≢ Err stops.SinkFailed }
{
    let body = take_body(&mut task.frames);
    let place = body.place;
    let answer = obey(alloc, runtime, task, objects, host, prefix, fuel, out, body);
    placed(answer, place)
}

// The body that runs.
#[inline(always)]
pub(crate) fn running(frames: &Frames) -> &Body
    requires { IsBody frames.now.now }
    ensures { frames.entry.now.now ≡ nows.Running result.now }
{
    match &frames.now {
        Now::Running(body) => body,
        Now::Calling { .. } | Now::Invoking { .. } | Now::Answering(_) => unreachable!(),
    }
}

// Takes the body that runs out of the frames.
#[inline(always)]
pub(crate) fn take_body(frames: &mut Frames) -> Body
    requires { IsBody frames.old.now }
    ensures body { frames.old.now ≡ nows.Running result }
    ensures left { frames.new ≡ record frames.old { now = nows.Answering cells.Nil } }
{
    match mem::replace(&mut frames.now, Now::Answering(Cell::Nil)) {
        Now::Running(body) => body,
        Now::Calling { .. } | Now::Invoking { .. } | Now::Answering(_) => unreachable!(),
    }
}
