//! A value given to what waited for it, by what that is.

ghost use Rattle.som_interp_calls.specs.Answering.{IsMet, IsNotForName, Resumes};
ghost use Rattle.som_interp_loop.specs.Moving.{Keeps};
ghost use Rattle.som_interp_loop.specs.Scene.{scene};
ghost use Rattle.som_objects.specs.Objects.{Objects};
ghost use Rattle.som_objects.specs.declared.cell.Cell.{Cell as Held};
ghost use Rattle.som_interp_state.specs.declared.frames.Waiting.TheVariants as waits;
ghost use Rattle.som_interp_state.specs.Asked.{HaveAncestors};
ghost use Rattle.std.specs.Prelude.{◌≡◌, ◌≤◌, ◌+◌, ℕ};

use crate::dispatching::to_name;
use crate::methods::method_named;
use crate::parents::next_call;
use crate::values::{to_body, to_freed, to_object};
use som_interp_loop::Stop;
use som_interp_state::{Now, Runtime, Task, Waiting};
use som_objects::{Cell, ObjectStore};
use som_tables::Steps;
use som_trace::Place;
use som_values::Reference;
use std::alloc::Global;
use std::sync::ledger::Ledger;

/// A value comes to what waited for it, which has been taken from what waits. The name of a dispatch alone counts steps, and
/// no more than a class that is made has ancestors.
pub fn resume<R: Runtime, L: Ledger>(
    alloc: Global,
    runtime: &R,
    task: &mut Task,
    objects: &mut ObjectStore,
    waiting: Waiting,
    value: Cell,
    steps: &mut Steps<L>,
) -> Result<Now, Stop>
    requires { (f : ℕ) × IsMet (scene (R.linked runtime.now) (R.known runtime.now) (R.program runtime.now) (R.made runtime.now) objects.old task.old f) waiting value }
    ensures resumes { (f : ℕ) → Resumes (scene (R.linked runtime.now) (R.known runtime.now) (R.program runtime.now) (R.made runtime.now) objects.old task.old f)
        (scene (R.linked runtime.now) (R.known runtime.now) (R.program runtime.now) (R.made runtime.now) objects.new task.new f) waiting value result }
    ensures keeps { (f : ℕ) → Keeps (scene (R.linked runtime.now) (R.known runtime.now) (R.program runtime.now) (R.made runtime.now) objects.old task.old f)
        (scene (R.linked runtime.now) (R.known runtime.now) (R.program runtime.now) (R.made runtime.now) objects.new task.new f) }
    ensures steps { IsNotForName waiting → steps.new ≡ steps.old }
    ensures searches { (n : ℕ) → HaveAncestors (R.known runtime.now).classes (R.made runtime.now) n → steps.new ≤ steps.old + n }
{
    match waiting {
        Waiting::Call(body) => to_body(body, value),
        Waiting::Hook { left, answer } => Ok(Now::Invoking { left, answer }),
        Waiting::Method(left) => Ok(Now::Invoking {
            left,
            answer: value,
        }),
        Waiting::Object { from, code, at } => to_object(
            runtime, task, objects, from, code, at, value,
        ),
        Waiting::Init(object) => Ok(Now::Answering(Cell::Object(object))),
        Waiting::Uninit { from, object } => to_freed(objects, from, &object),
        Waiting::Name {
            levels,
            from,
            code,
            at,
            on,
            args,
        } => to_name(
            alloc, runtime, task, objects, levels, from, code, at, on, args, value, steps,
        ),
        Waiting::Parent {
            levels,
            me,
            from,
            parent,
            code,
            at,
            args,
        } => to_parent(
            alloc, runtime, task, levels, me, from, parent, code, at, args,
        ),
    }
}

// The body of one parent has ended; that of the next is called.
fn to_parent<R: Runtime>(
    alloc: Global,
    runtime: &R,
    task: &mut Task,
    levels: u32,
    me: Option<Reference>,
    from: Place,
    parent: usize,
    code: usize,
    at: usize,
    args: Vec<Cell>,
) -> Result<Now, Stop>
    requires { (os : Objects) × (f : ℕ) × (value : Held) × IsMet (scene (R.linked runtime.now) (R.known runtime.now) (R.program runtime.now) (R.made runtime.now) os task.old f) (waits.Parent levels me from parent code at args) value }
    ensures resumes { (os : Objects) (f : ℕ) (value : Held) → Resumes (scene (R.linked runtime.now) (R.known runtime.now) (R.program runtime.now) (R.made runtime.now) os task.old f)
        (scene (R.linked runtime.now) (R.known runtime.now) (R.program runtime.now) (R.made runtime.now) os task.new f) (waits.Parent levels me from parent code at args) value result }
    ensures same { task.new ≡ record task.old { frames = task.new.frames } }
{
    let method = method_named(runtime, &task.codes, code, at);
    next_call(
        alloc,
        runtime,
        &mut task.frames,
        levels,
        me,
        from,
        parent,
        code,
        at,
        method,
        args,
    )
}
