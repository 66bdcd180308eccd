//! The start of somFree, which calls somUninit first.

ghost use Rattle.som_interp_builtins.specs.declared.kinds.KernelBody.TheVariants as kinds;
ghost use Rattle.som_interp_invoke.specs.Beginning.{Began, MayBegin};
ghost use Rattle.som_interp_invoke.specs.declared.begun.What.TheVariants as whats;
ghost use Rattle.som_interp_loop.specs.Scene.{scene};
ghost use Rattle.som_objects.specs.declared.cell.Cell.{Cell as Argument};
ghost use Rattle.std.specs.Prelude.{◌≡◌, ℕ, List};

use crate::Begun;
use crate::answering::place_of;
use crate::calling::{called, wait_for};
use som_interp_dispatch::{pass_offset, uninit_token};
use som_interp_loop::Stop;
use som_interp_state::{Now, Runtime, Task, Waiting};
use som_model::Fault;
use som_objects::{Cell, ObjectStore};
use som_trace::Manner;
use som_values::Reference;
use std::alloc::Global;

/// The body of somFree: somUninit is called on self, which is freed then. A class object and the class manager object
/// aren't freed.
pub(crate) fn begin_freeing<R: Runtime>(
    alloc: Global,
    runtime: &R,
    task: &mut Task,
    objects: &ObjectStore,
    levels: u32,
    begun: Begun,
    me: Reference,
) -> Result<Now, Stop>
    requires what { begun.what ≡ whats.Kernel kinds.Free }
    requires can { (args : List Argument) × MayBegin (R.linked runtime.now) (R.known runtime.now) (R.program runtime.now) (R.made runtime.now) objects.now task.old begun me args }
    ensures { (f : ℕ) (args : List Argument) → Began (scene (R.linked runtime.now) (R.known runtime.now) (R.program runtime.now) (R.made runtime.now) objects.now task.old f)
        (scene (R.linked runtime.now) (R.known runtime.now) (R.program runtime.now) (R.made runtime.now) objects.now task.new f) begun levels me args result }
{
    let Reference::Object(object) = me else {
        return Err(Stop::Fault {
            fault: Fault::ClassFree,
            at: place_of(&begun),
        });
    };
    let from = place_of(&begun);
    wait_for(&mut task.frames.waiting, Waiting::Uninit { from, object })?;
    let on = Cell::Object(object);
    let none = Vec::new(alloc);
    let method = uninit_token(runtime);
    let at = place_of(&begun);
    let call = pass_offset(runtime, objects, at, Manner::Offset, method, &on, none);
    called(levels, place_of(&begun), call)
}
