//! The start of somFindClass, which makes the class that it finds.

ghost use Rattle.som_interp_builtins.specs.declared.kinds.KernelBody.TheVariants as kinds;
ghost use Rattle.som_interp_invoke.specs.Beginning.{Began};
ghost use Rattle.som_interp_invoke.specs.declared.begun.What.TheVariants as whats;
ghost use Rattle.som_interp_loop.specs.Scene.{scene};
ghost use Rattle.som_objects.specs.Objects.{Objects};
ghost use Rattle.som_interp_state.specs.declared.task.Task.{Task};
ghost use Rattle.som_values.specs.declared.reference.Reference.{Reference as To};
ghost use Rattle.std.specs.Prelude.{◌≡◌, ℕ};

use crate::Begun;
use som_interp_builtins::find_class;
use som_interp_loop::Stop;
use som_interp_state::{Now, Runtime};
use som_objects::Cell;
use std::alloc::Global;

/// The body of somFindClass: a class that is found is made, and its class object answered; else nil.
pub(crate) fn begin_finding<R: Runtime>(
    alloc: Global,
    runtime: &mut R,
    begun: Begun,
    args: &[Cell],
) -> Result<Now, Stop>
    requires { begun.what ≡ whats.Kernel kinds.FindClass }
    ensures linked { R.linked runtime.new ≡ R.linked runtime.old }
    ensures known { R.known runtime.new ≡ R.known runtime.old }
    ensures program { R.program runtime.new ≡ R.program runtime.old }
    ensures began { (os : Objects) (t : Task) (f levels : ℕ) (me : To) → Began (scene (R.linked runtime.old) (R.known runtime.old) (R.program runtime.old) (R.made runtime.old) os t f)
        (scene (R.linked runtime.new) (R.known runtime.new) (R.program runtime.new) (R.made runtime.new) os t f) begun levels me args.now result }
{
    runtime.know();
    let Some(class) = find_class(alloc, &*runtime, args)? else {
        return Ok(Now::Answering(Cell::Nil));
    };
    runtime.reach(alloc, class)?;
    Ok(Now::Answering(Cell::Class(class)))
}
