//! Values that come to a waiting body, `new` or somFree.

ghost use Rattle.som_interp_calls.specs.Answering.{IsMet, Resumes};
ghost use Rattle.som_meta.specs.Numbering.{Numbering};
ghost use Rattle.som_model.specs.declared.key.ClassKey.{ClassKey};
ghost use Rattle.som_model.specs.declared.syntax.Block.{Block};
ghost use Rattle.som_interp_loop.specs.Moving.{Keeps};
ghost use Rattle.som_interp_loop.specs.Scene.{Scene, scene};
ghost use Rattle.som_objects.specs.Objects.{IsKnown};
ghost use Rattle.som_interp_state.specs.Settings.{Linked};
ghost use Rattle.som_interp_state.specs.declared.frames.Waiting.TheVariants as waits;
ghost use Rattle.som_values.specs.Shown.{IsMade};
ghost use Rattle.std.specs.Prelude.{ℕ, Bool};

use crate::classes::{cast_to, class_named};
use crate::tested::stop;
use som_interp_loop::Stop;
use som_interp_objects::free;
use som_interp_ops::push;
use som_interp_state::{Body, Now, Runtime, Task};
use som_objects::{Cell, ObjRef, ObjectStore};
use som_trace::Place;

/// A body goes on, with the value of its call on top of its operands.
pub fn to_body(mut body: Body, value: Cell) -> Result<Now, Stop>
    ensures { (c : Scene) → Resumes c c (waits.Call body) value result }
{
    push(&mut body.operands, value)?;
    Ok(Now::Running(body))
}

/// A new object comes to the `new` that asked for it, and has to be of the class that it names.
pub fn to_object<R: Runtime>(
    runtime: &R,
    task: &Task,
    objects: &ObjectStore,
    from: Place,
    code: usize,
    at: usize,
    value: Cell,
) -> Result<Now, Stop>
    requires { (f : ℕ) × IsMet (scene (R.linked runtime.now) (R.known runtime.now) (R.program runtime.now) (R.made runtime.now) objects.now task.now f) (waits.Object from code at) value }
    ensures { (f : ℕ) → Resumes (scene (R.linked runtime.now) (R.known runtime.now) (R.program runtime.now) (R.made runtime.now) objects.now task.now f)
        (scene (R.linked runtime.now) (R.known runtime.now) (R.program runtime.now) (R.made runtime.now) objects.now task.now f) (waits.Object from code at) value result }
{
    runtime.know();
    let class = class_named(runtime, &task.codes, code, at);
    match cast_to(runtime, objects, class, &value) {
        Ok(()) => Ok(Now::Answering(value)),
        Err(fault) => Err(Stop::Fault { fault, at: from }),
    }
}

/// An object is freed, after somUninit on it.
pub fn to_freed(objects: &mut ObjectStore, from: Place, object: &ObjRef) -> Result<Now, Stop>
    requires { IsKnown objects.old object.now }
    ensures resumes { (l : Linked) (kn : Numbering) (main : Block) (made : ClassKey → Bool) (t : Task) (f : ℕ) (value : Cell)
        → Resumes (scene l kn main made objects.old t f) (scene l kn main made objects.new t f) (waits.Uninit from object.now) value result }
    ensures keeps { (l : Linked) (kn : Numbering) (main : Block) (made : ClassKey → Bool) (t : Task) (f : ℕ) → IsMade t.serials object.now.serial
        → Keeps (scene l kn main made objects.old t f) (scene l kn main made objects.new t f) }
{
    match free(objects, object) {
        Ok(()) => Ok(Now::Answering(Cell::Nil)),
        Err(stopped) => Err(stop(from, stopped)),
    }
}
