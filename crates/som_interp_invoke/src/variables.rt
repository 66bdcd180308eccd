//! The starts of the bodies that get and set a variable.

ghost use Rattle.som_interp_builtins.specs.Arguments.{first_cell};
ghost use Rattle.som_interp_invoke.specs.Beginning.{Began, MayBegin, answer_at, with_answer, write_at};
ghost use Rattle.som_interp_invoke.specs.Begun.{IsOfVariable};
ghost use Rattle.som_interp_invoke.specs.declared.begun.What.TheVariants as whats;
ghost use Rattle.som_interp_loop.specs.Scene.{scene};
ghost use Rattle.som_interp_state.specs.declared.frames.Frames.{Frames};
ghost use Rattle.som_objects.specs.declared.cell.Cell.{Cell as Argument};
ghost use Rattle.som_trace.specs.declared.running.Place.TheVariants as places;
ghost use Rattle.std.specs.Prelude.{◌≡◌, ℕ, List};

use crate::answering::{answered, done, place_of, stop_at};
use crate::{Begun, What};
use som_interp_loop::Stop;
use som_interp_objects::{assign, read};
use som_interp_state::{Now, Runtime, Task};
use som_objects::{Cell, ObjectStore};
use som_trace::Place;
use som_values::{Reference, Stopped};
use std::alloc::Global;

/// A body that reads a variable: the task goes on with its value, or has the fault in the body's place.
pub(crate) fn begin_reading<R: Runtime>(
    runtime: &R,
    task: &Task,
    objects: &ObjectStore,
    begun: Begun,
    variable: u8,
    me: Reference,
) -> Result<Now, Stop>
    requires what { begun.what ≡ whats.Get variable }
    requires can { (args : List Argument) × MayBegin (R.linked runtime.now) (R.known runtime.now) (R.program runtime.now) (R.made runtime.now) objects.now task.now begun me args }
    ensures { (f levels : ℕ) (args : List Argument) → Began (scene (R.linked runtime.now) (R.known runtime.now) (R.program runtime.now) (R.made runtime.now) objects.now task.now f)
        (scene (R.linked runtime.now) (R.known runtime.now) (R.program runtime.now) (R.made runtime.now) objects.now task.now f) begun levels me args result }
{
    let at = place_of(&begun);
    answered(
        at,
        read_variable(runtime, task, objects, &begun, variable, me),
    )
}

/// What a body answers that only gets or sets a variable, whatever waits for it, or why the task stops: the value that it gets,
/// or nil after it has set the variable to the first argument.
pub fn get_or_set<R: Runtime>(
    alloc: Global,
    runtime: &R,
    task: &mut Task,
    objects: &mut ObjectStore,
    begun: &Begun,
    me: Reference,
    argument: Cell,
) -> Result<Cell, Stop>
    requires what { IsOfVariable begun.now.what }
    requires can { (fr : Frames) × (args : List Argument) × MayBegin (R.linked runtime.now) (R.known runtime.now) (R.program runtime.now) (R.made runtime.now) objects.old (record task.old { frames = fr }) begun.now me args }
    ensures began { (fr : Frames) (f levels : ℕ) (args : List Argument) → argument ≡ first_cell args → Began (scene (R.linked runtime.now) (R.known runtime.now) (R.program runtime.now) (R.made runtime.now) objects.old (record task.old { frames = fr }) f)
        (scene (R.linked runtime.now) (R.known runtime.now) (R.program runtime.now) (R.made runtime.now) objects.new (record task.new { frames = fr }) f) begun.now levels me args (with_answer result) }
    ensures same { task.new ≡ record task.old { statics = task.new.statics } }
{
    let at = place_of(begun);
    match begun.what {
        What::Get(variable) => or_stop(
            at,
            read_variable(runtime, &*task, &*objects, begun, variable, me),
        ),
        What::Set(variable) => {
            match write_variable(alloc, runtime, task, objects, begun, variable, me, argument) {
                Ok(()) => Ok(Cell::Nil),
                Err(stopped) => Err(stop_at(at, stopped)),
            }
        },
        _ => unreachable!(),
    }
}

// What is answered, or why the task stops in this place.
fn or_stop(at: Place, answer: Result<Cell, Stopped>) -> Result<Cell, Stop>
    ensures { with_answer result ≡ answer_at at answer }
{
    match answer {
        Ok(cell) => Ok(cell),
        Err(stopped) => Err(stop_at(at, stopped)),
    }
}

// The value of the variable that a body reads, whatever waits for it; or why there is none.
fn read_variable<R: Runtime>(
    runtime: &R,
    task: &Task,
    objects: &ObjectStore,
    begun: &Begun,
    variable: u8,
    me: Reference,
) -> Result<Cell, Stopped>
    requires what { begun.now.what ≡ whats.Get variable }
    requires can { (fr : Frames) × (args : List Argument) × MayBegin (R.linked runtime.now) (R.known runtime.now) (R.program runtime.now) (R.made runtime.now) objects.now (record task.now { frames = fr }) begun.now me args }
    ensures { (fr : Frames) (f levels : ℕ) (args : List Argument) → Began (scene (R.linked runtime.now) (R.known runtime.now) (R.program runtime.now) (R.made runtime.now) objects.now (record task.now { frames = fr }) f)
        (scene (R.linked runtime.now) (R.known runtime.now) (R.program runtime.now) (R.made runtime.now) objects.now (record task.now { frames = fr }) f) begun.now levels me args (answer_at (places.Body begun.now.class begun.now.method) result) }
{
    read(
        runtime,
        objects,
        &task.statics,
        Some(me),
        begun.class,
        variable,
    )
}

/// A body that writes a variable: it gets the first argument, or nil where there is none, and the task goes on with nil.
pub(crate) fn begin_writing<R: Runtime>(
    alloc: Global,
    runtime: &R,
    task: &mut Task,
    objects: &mut ObjectStore,
    begun: Begun,
    variable: u8,
    me: Reference,
    args: Vec<Cell>,
) -> Result<Now, Stop>
    requires what { begun.what ≡ whats.Set variable }
    requires can { MayBegin (R.linked runtime.now) (R.known runtime.now) (R.program runtime.now) (R.made runtime.now) objects.old task.old begun me args.items }
    ensures { (f levels : ℕ) → Began (scene (R.linked runtime.now) (R.known runtime.now) (R.program runtime.now) (R.made runtime.now) objects.old task.old f)
        (scene (R.linked runtime.now) (R.known runtime.now) (R.program runtime.now) (R.made runtime.now) objects.new task.new f) begun levels me args.items result }
{
    let at = place_of(&begun);
    let cell = first(args);
    done(
        at,
        write_variable(alloc, runtime, task, objects, &begun, variable, me, cell),
    )
}

// The variable that a body writes gets this value, the first of the arguments, whatever waits for the body.
fn write_variable<R: Runtime>(
    alloc: Global,
    runtime: &R,
    task: &mut Task,
    objects: &mut ObjectStore,
    begun: &Begun,
    variable: u8,
    me: Reference,
    cell: Cell,
) -> Result<(), Stopped>
    requires what { begun.now.what ≡ whats.Set variable }
    requires can { (fr : Frames) × (args : List Argument) × MayBegin (R.linked runtime.now) (R.known runtime.now) (R.program runtime.now) (R.made runtime.now) objects.old (record task.old { frames = fr }) begun.now me args }
    ensures began { (fr : Frames) (f levels : ℕ) (args : List Argument) → cell ≡ first_cell args → Began (scene (R.linked runtime.now) (R.known runtime.now) (R.program runtime.now) (R.made runtime.now) objects.old (record task.old { frames = fr }) f)
        (scene (R.linked runtime.now) (R.known runtime.now) (R.program runtime.now) (R.made runtime.now) objects.new (record task.new { frames = fr }) f) begun.now levels me args (write_at (places.Body begun.now.class begun.now.method) result) }
    ensures same { task.new ≡ record task.old { statics = task.new.statics } }
{
    runtime.know();
    assign(
        alloc,
        runtime,
        objects,
        &mut task.statics,
        Some(me),
        begun.class,
        variable,
        cell,
    )
}

// The first argument, or nil where there is none.
fn first(args: Vec<Cell>) -> Cell
    ensures { result ≡ first_cell args.items }
{
    match args.into_iter().next() {
        Some(cell) => cell,
        None => Cell::Nil,
    }
}
