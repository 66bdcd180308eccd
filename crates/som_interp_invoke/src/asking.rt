//! The start of a kernel body that only asks.

ghost use Rattle.som_interp_builtins.specs.Kinds.{LooksUpNone};
ghost use Rattle.som_interp_builtins.specs.declared.kinds.KernelBody.TheVariants as kinds;
ghost use Rattle.som_interp_invoke.specs.Beginning.{Began, CanBegin};
ghost use Rattle.som_interp_invoke.specs.declared.begun.What.TheVariants as whats;
ghost use Rattle.som_interp_loop.specs.Scene.{scene};
ghost use Rattle.som_interp_state.specs.declared.task.Task.{Task};
ghost use Rattle.som_interp_state.specs.Asked.{HaveAncestors};
ghost use Rattle.std.specs.Prelude.{◌≡◌, ◌≤◌, ◌+◌, ℕ};

use crate::Begun;
use crate::answering::answered;
use som_interp_builtins::{Asking, ask};
use som_interp_loop::Stop;
use som_interp_state::{Now, Runtime};
use som_objects::{Cell, ObjectStore};
use som_tables::Steps;
use som_trace::Place;
use som_values::Reference;
use std::alloc::Global;
use std::sync::ledger::Ledger;

/// A body of the kernel's that only asks: the task goes on with the answer, or has the fault in the body's place.
pub(crate) fn begin_asking<R: Runtime, L: Ledger>(
    alloc: Global,
    runtime: &R,
    objects: &ObjectStore,
    begun: Begun,
    asking: Asking,
    me: Reference,
    args: &[Cell],
    steps: &mut Steps<L>,
) -> Result<Now, Stop>
    requires what { begun.what ≡ whats.Kernel (kinds.Asks asking) }
    requires can { CanBegin (R.linked runtime.now) (R.known runtime.now) (R.program runtime.now) (R.made runtime.now) objects.now begun me args.now }
    ensures began { (t : Task) (f levels : ℕ) → Began (scene (R.linked runtime.now) (R.known runtime.now) (R.program runtime.now) (R.made runtime.now) objects.now t f)
        (scene (R.linked runtime.now) (R.known runtime.now) (R.program runtime.now) (R.made runtime.now) objects.now t f) begun levels me args.now result }
    ensures steps { LooksUpNone asking → steps.new ≡ steps.old }
    ensures searches { (n : ℕ) → HaveAncestors (R.known runtime.now).classes (R.made runtime.now) n → steps.new ≤ steps.old + n }
{
    runtime.know();
    let at = Place::Body {
        class: begun.class,
        method: begun.method,
    };
    answered(at, ask(alloc, runtime, objects, asking, me, args, steps))
}
