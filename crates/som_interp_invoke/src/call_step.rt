//! A call made: its bodies are left to invoke, or the fault is Nil or Depth.

ghost use Rattle.som_interp_loop.specs.Scene.{scene};
ghost use Rattle.som_interp_invoke.specs.Stepping.{ComesTo, IsStanding};
ghost use Rattle.som_interp_state.specs.declared.frames.Now.TheVariants as nows;
ghost use Rattle.som_interp_state.specs.declared.task.Task.{Task};
ghost use Rattle.std.specs.Prelude.{ℕ, []};

use som_interp_dispatch::{enter, has_method};
use som_interp_loop::Stop;
use som_interp_state::{Call, Now, Runtime};
use som_model::Fault;
use som_objects::{Cell, ObjectStore};

/// A call that has passed its tests is made: its bodies are left to invoke, and it answers nil so far. Where the
/// object has no such method the fault is Nil, and where no level is left it is Depth, both in the caller's place.
pub fn make_call<R: Runtime>(
    runtime: &R,
    objects: &ObjectStore,
    levels: u32,
    call: Call,
) -> Result<Now, Stop>
    requires standing { (t : Task) × (f : ℕ) × IsStanding (scene (R.linked runtime.now) (R.known runtime.now) (R.program runtime.now) (R.made runtime.now) objects.now t f) (nows.Calling levels call) }
    ensures { (t : Task) (f : ℕ) → ComesTo (scene (R.linked runtime.now) (R.known runtime.now) (R.program runtime.now) (R.made runtime.now) objects.now t f)
        (scene (R.linked runtime.now) (R.known runtime.now) (R.program runtime.now) (R.made runtime.now) objects.now t f) (nows.Calling levels call) result [] }
{
    runtime.know();
    let at = call.from;
    if !has_method(runtime, objects, &call) {
        return Err(Stop::Fault {
            fault: Fault::Nil,
            at,
        });
    }
    match enter(runtime, objects, levels, call) {
        Ok(left) => Ok(Now::Invoking {
            left,
            answer: Cell::Nil,
        }),
        Err(fault) => Err(Stop::Fault { fault, at }),
    }
}
