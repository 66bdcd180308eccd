//! The start of a proxy's body, which hands the call on to the target.

ghost use Rattle.som_interp_invoke.specs.Beginning.{Began, CanBegin};
ghost use Rattle.som_interp_invoke.specs.declared.begun.What.TheVariants as whats;
ghost use Rattle.som_interp_loop.specs.Scene.{scene};
ghost use Rattle.som_interp_state.specs.declared.task.Task.{Task};
ghost use Rattle.std.specs.Prelude.{◌≡◌, ℕ};

use crate::Begun;
use crate::answering::{place_of, stop_at};
use crate::calling::called;
use som_interp_dispatch::pass_offset;
use som_interp_loop::Stop;
use som_interp_objects::target;
use som_interp_state::{Now, Runtime};
use som_objects::{Cell, ObjectStore};
use som_trace::Manner;
use som_values::Reference;

/// A proxy's body: it makes the call that it got on its target.
pub(crate) fn begin_forwarding<R: Runtime>(
    runtime: &R,
    objects: &ObjectStore,
    levels: u32,
    begun: Begun,
    me: Reference,
    args: Vec<Cell>,
) -> Result<Now, Stop>
    requires what { begun.what ≡ whats.Forward }
    requires can { CanBegin (R.linked runtime.now) (R.known runtime.now) (R.program runtime.now) (R.made runtime.now) objects.now begun me args.items }
    ensures { (t : Task) (f : ℕ) → Began (scene (R.linked runtime.now) (R.known runtime.now) (R.program runtime.now) (R.made runtime.now) objects.now t f)
        (scene (R.linked runtime.now) (R.known runtime.now) (R.program runtime.now) (R.made runtime.now) objects.now t f) begun levels me args.items result }
{
    runtime.know();
    let method = begun.method;
    let _signature = runtime.signature(method);
    let on = match target(runtime, objects, me) {
        Ok(on) => on,
        Err(stopped) => return Err(stop_at(place_of(&begun), stopped)),
    };
    let at = place_of(&begun);
    let call = pass_offset(runtime, objects, at, Manner::Forward, method, &on, args);
    called(levels, place_of(&begun), call)
}
