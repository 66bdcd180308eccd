//! The step that gives a value to what waits last.

ghost use Rattle.som_interp_loop.specs.Counted.{Counted};
ghost use Rattle.som_interp_loop.specs.Standing.{IsSomewhere};
ghost use Rattle.som_exec.specs.Came.{CameSilent, IsResuming, IsValue, place_in};
ghost use Rattle.som_interp_loop.specs.Scene.{scene};
ghost use Rattle.som_objects.specs.declared.cell.Cell.TheVariants as cells;
ghost use Rattle.som_interp_state.specs.declared.frames.Now.TheVariants as nows;
ghost use Rattle.std.specs.Prelude.{◌≡◌, ℕ};

use crate::placing::placed;
use som_interp_calls::resume;
use som_interp_loop::Stop;
use som_interp_state::{Now, Runtime, Task, Waiting};
use som_objects::{Cell, ObjectStore};
use som_tables::Steps;
use som_trace::Place;
use std::alloc::Global;
use std::mem;
use std::sync::ledger::Ledger;

/// A value is answered to what waits last. What is next then is answered.
pub fn resume_next<R: Runtime, L: Ledger>(
    alloc: Global,
    runtime: &R,
    task: &mut Task,
    objects: &mut ObjectStore,
    steps: &mut Steps<L>,
) -> Result<Now, Stop>
    requires resuming { IsResuming task.old.frames }
    requires somewhere { (f : ℕ) × IsSomewhere (scene (R.linked runtime.now) (R.known runtime.now) (R.program runtime.now) (R.made runtime.now) objects.old task.old f) }
    ensures came { (f : ℕ) → IsSomewhere (scene (R.linked runtime.now) (R.known runtime.now) (R.program runtime.now) (R.made runtime.now) objects.old task.old f)
        → CameSilent (scene (R.linked runtime.now) (R.known runtime.now) (R.program runtime.now) (R.made runtime.now) objects.old task.old f)
        (scene (R.linked runtime.now) (R.known runtime.now) (R.program runtime.now) (R.made runtime.now) objects.new task.new f) result }
    ensures counted { (f : ℕ) → Counted (scene (R.linked runtime.now) (R.known runtime.now) (R.program runtime.now) (R.made runtime.now) objects.old task.old f) steps.old steps.new }
{
    let value = take_value(&mut task.frames.now);
    match task.frames.waiting.pop() {
        Some(first) => {
            let place = place_of(&first);
            placed(
                resume(alloc, runtime, task, objects, first, value, steps),
                place,
            )
        },
        None => unreachable!(),
    }
}

// The place that what waits names for its faults, if it has any.
fn place_of(waiting: &Waiting) -> Place
    ensures { result ≡ place_in waiting.now }
{
    match waiting {
        Waiting::Object { from, .. } => *from,
        Waiting::Uninit { from, .. } => *from,
        Waiting::Name { from, .. } => *from,
        Waiting::Parent { from, .. } => *from,
        Waiting::Call(_) | Waiting::Hook { .. } | Waiting::Method(_) | Waiting::Init(_) => {
            Place::Main
        },
    }
}

// Takes the value that is answered.
#[inline(always)]
fn take_value(now: &mut Now) -> Cell
    requires { IsValue now.old }
    ensures value { now.old ≡ nows.Answering result }
    ensures left { now.new ≡ nows.Answering cells.Nil }
{
    match mem::replace(now, Now::Answering(Cell::Nil)) {
        Now::Answering(value) => value,
        Now::Running(_) | Now::Calling { .. } | Now::Invoking { .. } => unreachable!(),
    }
}
