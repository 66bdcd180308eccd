//! The starts of somNew and somNewNoInit, which make objects.

ghost use Rattle.som_interp_builtins.specs.declared.kinds.KernelBody.TheVariants as kinds;
ghost use Rattle.som_interp_invoke.specs.Beginning.{Began, MayBegin};
ghost use Rattle.som_interp_invoke.specs.declared.begun.What.TheVariants as whats;
ghost use Rattle.som_interp_loop.specs.Scene.{scene};
ghost use Rattle.som_objects.specs.declared.cell.Cell.{Cell as Argument};
ghost use Rattle.std.specs.Prelude.{◌≡◌, ◌<◌, ℕ, List};

use crate::Begun;
use crate::answering::place_of;
use crate::calling::{called, wait_for};
use som_interp_dispatch::{init_token, pass_offset};
use som_interp_loop::Stop;
use som_interp_objects::make;
use som_interp_state::{Now, Runtime, Task, Waiting};
use som_model::Fault;
use som_objects::{Cell, ObjectStore};
use som_trace::Manner;
use som_values::Reference;
use std::alloc::Global;

/// The body of somNewNoInit: a new object of the class whose class object self is.
pub(crate) fn begin_making<R: Runtime>(
    alloc: Global,
    runtime: &R,
    task: &mut Task,
    objects: &mut ObjectStore,
    begun: Begun,
    me: Reference,
) -> Result<Now, Stop>
    requires what { begun.what ≡ whats.Kernel kinds.NewNoInit }
    requires can { (args : List Argument) × MayBegin (R.linked runtime.now) (R.known runtime.now) (R.program runtime.now) (R.made runtime.now) objects.old task.old begun me args }
    ensures { (f levels : ℕ) (args : List Argument) → Began (scene (R.linked runtime.now) (R.known runtime.now) (R.program runtime.now) (R.made runtime.now) objects.old task.old f)
        (scene (R.linked runtime.now) (R.known runtime.now) (R.program runtime.now) (R.made runtime.now) objects.new task.new f) begun levels me args result }
{
    let Reference::Class(class) = me else {
        return Err(Stop::Fault {
            fault: Fault::NotClass,
            at: place_of(&begun),
        });
    };
    let object = make(alloc, runtime, objects, &mut task.serials, class, Cell::Nil)?;
    Ok(Now::Answering(Cell::Object(object)))
}

/// The body of somNew: a new object of the class whose class object self is, on which somInit is called.
pub(crate) fn begin_new<R: Runtime>(
    alloc: Global,
    runtime: &R,
    task: &mut Task,
    objects: &mut ObjectStore,
    levels: u32,
    begun: Begun,
    me: Reference,
) -> Result<Now, Stop>
    requires what { begun.what ≡ whats.Kernel kinds.New }
    requires can { (args : List Argument) × MayBegin (R.linked runtime.now) (R.known runtime.now) (R.program runtime.now) (R.made runtime.now) objects.old task.old begun me args }
    ensures { (f : ℕ) (args : List Argument) → Began (scene (R.linked runtime.now) (R.known runtime.now) (R.program runtime.now) (R.made runtime.now) objects.old task.old f)
        (scene (R.linked runtime.now) (R.known runtime.now) (R.program runtime.now) (R.made runtime.now) objects.new task.new f) begun levels me args result }
{
    let Reference::Class(class) = me else {
        return Err(Stop::Fault {
            fault: Fault::NotClass,
            at: place_of(&begun),
        });
    };
    let object = make(alloc, runtime, objects, &mut task.serials, class, Cell::Nil)?;
    wait_for(&mut task.frames.waiting, Waiting::Init(object))?;
    let on = Cell::Object(object);
    let none = Vec::new(alloc);
    let method = init_token(runtime);
    let at = place_of(&begun);
    let call = pass_offset(runtime, objects, at, Manner::Offset, method, &on, none);
    called(levels, place_of(&begun), call)
}
