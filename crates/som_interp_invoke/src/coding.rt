//! The start of a body with code, as a new frame.

ghost use Rattle.som_interp_invoke.specs.Beginning.{Began};
ghost use Rattle.som_interp_invoke.specs.declared.begun.What.TheVariants as whats;
ghost use Rattle.som_interp_loop.specs.Scene.{scene};
ghost use Rattle.som_objects.specs.Objects.{Objects};
ghost use Rattle.som_interp_state.specs.declared.task.Task.{Task};
ghost use Rattle.std.specs.Prelude.{◌≡◌, ℕ, Ok, true};

use crate::Begun;
use som_interp_objects::zero_of;
use som_interp_state::{Body, Now, Runtime};
use som_objects::Cell;
use som_trace::Place;
use som_values::Reference;
use std::alloc::Global;

/// A body with code: it stands at its first instruction, with its arguments as its locals.
pub(crate) fn begin_code<R: Runtime>(
    alloc: Global,
    runtime: &R,
    levels: u32,
    begun: Begun,
    code: usize,
    me: Reference,
    args: Vec<Cell>,
) -> Now
    requires what { begun.what ≡ whats.Code code }
    requires method { (R.linked runtime.now).is_token begun.method ≡ true }
    ensures { (os : Objects) (t : Task) (f : ℕ) → Began (scene (R.linked runtime.now) (R.known runtime.now) (R.program runtime.now) (R.made runtime.now) os t f)
        (scene (R.linked runtime.now) (R.known runtime.now) (R.program runtime.now) (R.made runtime.now) os t f) begun levels me args.items (Ok result) }
{
    runtime.know();
    let zero = zero_of(&runtime.signature(begun.method).result);
    Now::Running(Body {
        levels,
        me: Some(me),
        place: Place::Body {
            class: begun.class,
            method: begun.method,
        },
        zero,
        code,
        at: 0,
        operands: Vec::new(alloc),
        locals: args,
    })
}
