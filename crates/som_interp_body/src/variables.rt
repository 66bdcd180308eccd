//! The instructions that get and set self's variables.

ghost use Rattle.som_code.specs.declared.instruction.Instruction.TheVariants as ops;
ghost use Rattle.som_semantics.specs.Calls.{class_here};
ghost use Rattle.som_interp_loop.specs.Moving.{Keeps};
ghost use Rattle.som_interp_loop.specs.Scene.{scene};
ghost use Rattle.som_interp_loop.specs.declared.stop.Stop.TheVariants as stops;
ghost use Rattle.som_interp_loop.specs.NextInstruction.{next_of};
ghost use Rattle.som_interp_body.specs.Obeying.{ComesTo, HasClassNo, IsRunning, following};
ghost use Rattle.som_interp_state.specs.Settings.{Setting};
ghost use Rattle.som_interp_state.specs.Standing.{here_shown};
ghost use Rattle.som_values.specs.Shown.{IsNumbered, key_of};
ghost use Rattle.som_values.specs.declared.reference.Reference.{Reference};
ghost use Rattle.std.specs.Prelude.{◌≡◌, ◌≢◌, ◌<◌, ◌+◌, ◌^◌, ◌∷◌, [], ℕ, Err, Option, Some};

use crate::outcome::Outcome;
use crate::plain::stop;
use som_interp_loop::Stop;
use som_interp_objects::{assign, read};
use som_interp_ops::{pop, push};
use som_interp_state::{Body, Runtime, Task};
use som_objects::ObjectStore;
use som_tables::ClassNo;
use som_trace::Place;
use std::alloc::Global;

/// Self's variable of the class whose body runs comes to the top.
pub(crate) fn get_variable<R: Runtime>(
    runtime: &R,
    task: &Task,
    objects: &ObjectStore,
    variable: u8,
    body: &mut Body,
) -> Result<Outcome, Stop>
    requires room { body.old.at + 1 < 2 ^ 64 }
    requires running { (f : ℕ) × IsRunning (scene (R.linked runtime.now) (R.known runtime.now) (R.program runtime.now) (R.made runtime.now) objects.now task.now f) body.old }
    ensures sound { result ≢ Err stops.SinkFailed }
    ensures comes { (f : ℕ) → next_of (scene (R.linked runtime.now) (R.known runtime.now) (R.program runtime.now) (R.made runtime.now) objects.now task.now f) body.old ≡ Some (ops.GetVariable variable)
        → ComesTo (scene (R.linked runtime.now) (R.known runtime.now) (R.program runtime.now) (R.made runtime.now) objects.now task.now f) (scene (R.linked runtime.now) (R.known runtime.now) (R.program runtime.now) (R.made runtime.now) objects.now task.now f)
        body.old (following result body.new) [] }
{
    runtime.know();
    let class = class_at(runtime, &body.place);
    let at = body.place;
    match read(runtime, objects, &task.statics, body.me, class, variable) {
        Ok(cell) => {
            push(&mut body.operands, cell)?;
            body.at += 1;
            Ok(Outcome::GoesOn)
        },
        Err(stopped) => Err(stop(at, stopped)),
    }
}

/// Self's variable of the class whose body runs takes the top.
pub(crate) fn set_variable<R: Runtime>(
    alloc: Global,
    runtime: &R,
    task: &mut Task,
    objects: &mut ObjectStore,
    variable: u8,
    body: &mut Body,
) -> Result<Outcome, Stop>
    requires room { body.old.at + 1 < 2 ^ 64 }
    requires running { (f : ℕ) × IsRunning (scene (R.linked runtime.now) (R.known runtime.now) (R.program runtime.now) (R.made runtime.now) objects.old task.old f) body.old }
    requires is { (f : ℕ) → next_of (scene (R.linked runtime.now) (R.known runtime.now) (R.program runtime.now) (R.made runtime.now) objects.old task.old f) body.old ≡ Some (ops.SetVariable variable) }
    ensures sound { result ≢ Err stops.SinkFailed }
    ensures comes { (f : ℕ) → ComesTo (scene (R.linked runtime.now) (R.known runtime.now) (R.program runtime.now) (R.made runtime.now) objects.old task.old f) (scene (R.linked runtime.now) (R.known runtime.now) (R.program runtime.now) (R.made runtime.now) objects.new task.new f)
        body.old (following result body.new) [] }
    ensures keeps { (f : ℕ) → Keeps (scene (R.linked runtime.now) (R.known runtime.now) (R.program runtime.now) (R.made runtime.now) objects.old task.old f) (scene (R.linked runtime.now) (R.known runtime.now) (R.program runtime.now) (R.made runtime.now) objects.new task.new f) }
{
    runtime.know();
    let class = class_at(runtime, &body.place);
    let cell = pop(&mut body.operands);
    let at = body.place;
    match assign(
        alloc,
        runtime,
        objects,
        &mut task.statics,
        body.me,
        class,
        variable,
        cell,
    ) {
        Ok(()) => {
            body.at += 1;
            Ok(Outcome::GoesOn)
        },
        Err(stopped) => Err(stop(at, stopped)),
    }
}

/// The class whose body runs in a place; main's is SOMObject.
fn class_at<R: Runtime>(runtime: &R, place: &Place) -> ClassNo
    requires { HasClassNo (R.linked runtime.now).keys place.now }
    ensures numbered { IsNumbered (R.linked runtime.now).keys result }
    ensures key { (s : Setting) (me : Option Reference) → s.linked ≡ R.linked runtime.now → key_of (R.linked runtime.now).keys result ≡ class_here (here_shown s me place.now) }
{
    runtime.know();
    match place {
        Place::Main => ClassNo::new(0),
        Place::Body { class, .. } => *class,
    }
}
