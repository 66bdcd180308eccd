//! The start of any body on self with its arguments.

ghost use Rattle.som_interp_invoke.specs.Beginning.{Began, MayBegin};
ghost use Rattle.som_interp_invoke.specs.Begun.{LooksUpNone};
ghost use Rattle.som_interp_loop.specs.Scene.{scene};
ghost use Rattle.som_interp_loop.specs.declared.stop.Stop.TheVariants as stops;
ghost use Rattle.som_interp_state.specs.Asked.{HaveAncestors};
ghost use Rattle.std.specs.Prelude.{◌≡◌, ◌≢◌, ◌+◌, ◌<◌, ◌≤◌, ℕ, Err};

use crate::coding::begin_code;
use crate::forwarding::begin_forwarding;
use crate::kernel::begin_kernel;
use crate::nothing::begin_nothing;
use crate::variables::{begin_reading, begin_writing};
use crate::{Begun, What};
use som_interp_loop::Stop;
use som_interp_state::{Now, Runtime, Task};
use som_objects::{Cell, ObjectStore};
use som_tables::Steps;
use som_values::Reference;
use std::alloc::Global;
use std::sync::ledger::Ledger;

/// A body begins on self with these arguments, after its test, its unit and its line. What waits for it is among the
/// task's frames; what is next is the caller's to put there.
pub fn begin<R: Runtime, L: Ledger>(
    alloc: Global,
    runtime: &mut R,
    task: &mut Task,
    objects: &mut ObjectStore,
    levels: u32,
    begun: Begun,
    me: Reference,
    args: Vec<Cell>,
    steps: &mut Steps<L>,
) -> Result<Now, Stop>
    requires can { MayBegin (R.linked runtime.old) (R.known runtime.old) (R.program runtime.old) (R.made runtime.old) objects.old task.old begun me args.items }
    ensures linked { R.linked runtime.new ≡ R.linked runtime.old }
    ensures known { R.known runtime.new ≡ R.known runtime.old }
    ensures program { R.program runtime.new ≡ R.program runtime.old }
    ensures began { (f : ℕ) → Began (scene (R.linked runtime.old) (R.known runtime.old) (R.program runtime.old) (R.made runtime.old) objects.old task.old f)
        (scene (R.linked runtime.new) (R.known runtime.new) (R.program runtime.new) (R.made runtime.new) objects.new task.new f) begun levels me args.items result }
    ensures unspent { result ≢ Err stops.Spent }
    ensures unsunk { result ≢ Err stops.SinkFailed }
    ensures steps { LooksUpNone begun.what → steps.new ≡ steps.old }
    ensures searches { (n : ℕ) → HaveAncestors (R.known runtime.old).classes (R.made runtime.old) n → steps.new ≤ steps.old + n }
{
    begin_what(
        alloc, runtime, task, objects, levels, begun, me, args, steps,
    )
}

// A body begins, by what it holds.
fn begin_what<R: Runtime, L: Ledger>(
    alloc: Global,
    runtime: &mut R,
    task: &mut Task,
    objects: &mut ObjectStore,
    levels: u32,
    begun: Begun,
    me: Reference,
    args: Vec<Cell>,
    steps: &mut Steps<L>,
) -> Result<Now, Stop>
    requires can { MayBegin (R.linked runtime.old) (R.known runtime.old) (R.program runtime.old) (R.made runtime.old) objects.old task.old begun me args.items }
    ensures linked { R.linked runtime.new ≡ R.linked runtime.old }
    ensures known { R.known runtime.new ≡ R.known runtime.old }
    ensures program { R.program runtime.new ≡ R.program runtime.old }
    ensures began { (f : ℕ) → Began (scene (R.linked runtime.old) (R.known runtime.old) (R.program runtime.old) (R.made runtime.old) objects.old task.old f)
        (scene (R.linked runtime.new) (R.known runtime.new) (R.program runtime.new) (R.made runtime.new) objects.new task.new f) begun levels me args.items result }
    ensures steps { LooksUpNone begun.what → steps.new ≡ steps.old }
    ensures searches { (n : ℕ) → HaveAncestors (R.known runtime.old).classes (R.made runtime.old) n → steps.new ≤ steps.old + n }
{
    match begun.what {
        What::Code(code) => Ok(begin_code(alloc, &*runtime, levels, begun, code, me, args)),
        What::Get(variable) => { begin_reading(&*runtime, &*task, &*objects, begun, variable, me) },
        What::Set(variable) => {
            begin_writing(alloc, &*runtime, task, objects, begun, variable, me, args)
        },
        What::Kernel(kind) => {
            begin_kernel(
                alloc,
                runtime,
                task,
                objects,
                levels,
                begun,
                kind,
                me,
                args.as_slice(),
                steps,
            )
        },
        What::Forward => begin_forwarding(&*runtime, &*objects, levels, begun, me, args),
        What::Nothing => Ok(begin_nothing(begun)),
    }
}
