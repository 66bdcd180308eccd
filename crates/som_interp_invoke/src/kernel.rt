//! The start of any body of the kernel's, by what it does.

ghost use Rattle.som_interp_invoke.specs.Beginning.{Began, MayBegin};
ghost use Rattle.som_interp_invoke.specs.Begun.{LooksUpNone};
ghost use Rattle.som_interp_invoke.specs.declared.begun.What.TheVariants as whats;
ghost use Rattle.som_interp_loop.specs.Scene.{scene};
ghost use Rattle.som_interp_state.specs.Asked.{HaveAncestors};
ghost use Rattle.std.specs.Prelude.{◌≡◌, ◌+◌, ◌<◌, ◌≤◌, ℕ};

use crate::Begun;
use crate::asking::begin_asking;
use crate::finding::begin_finding;
use crate::freeing::begin_freeing;
use crate::making::{begin_making, begin_new};
use crate::nothing::begin_nothing;
use som_interp_builtins::KernelBody;
use som_interp_loop::Stop;
use som_interp_state::{Now, Runtime, Task};
use som_objects::{Cell, ObjectStore};
use som_tables::Steps;
use som_values::Reference;
use std::alloc::Global;
use std::sync::ledger::Ledger;

/// A body of the kernel's begins, by what it does; one that asks answers at once.
pub(crate) fn begin_kernel<R: Runtime, L: Ledger>(
    alloc: Global,
    runtime: &mut R,
    task: &mut Task,
    objects: &mut ObjectStore,
    levels: u32,
    begun: Begun,
    kind: KernelBody,
    me: Reference,
    args: &[Cell],
    steps: &mut Steps<L>,
) -> Result<Now, Stop>
    requires what { begun.what ≡ whats.Kernel kind }
    requires can { MayBegin (R.linked runtime.old) (R.known runtime.old) (R.program runtime.old) (R.made runtime.old) objects.old task.old begun me args.now }
    ensures linked { R.linked runtime.new ≡ R.linked runtime.old }
    ensures known { R.known runtime.new ≡ R.known runtime.old }
    ensures program { R.program runtime.new ≡ R.program runtime.old }
    ensures began { (f : ℕ) → Began (scene (R.linked runtime.old) (R.known runtime.old) (R.program runtime.old) (R.made runtime.old) objects.old task.old f)
        (scene (R.linked runtime.new) (R.known runtime.new) (R.program runtime.new) (R.made runtime.new) objects.new task.new f) begun levels me args.now result }
    ensures steps { LooksUpNone begun.what → steps.new ≡ steps.old }
    ensures searches { (n : ℕ) → HaveAncestors (R.known runtime.old).classes (R.made runtime.old) n → steps.new ≤ steps.old + n }
{
    match kind {
        KernelBody::Idle => Ok(begin_nothing(begun)),
        KernelBody::Free => begin_freeing(alloc, &*runtime, task, &*objects, levels, begun, me),
        KernelBody::New => begin_new(alloc, &*runtime, task, objects, levels, begun, me),
        KernelBody::NewNoInit => begin_making(alloc, &*runtime, task, objects, begun, me),
        KernelBody::FindClass => begin_finding(alloc, runtime, begun, args),
        KernelBody::Asks(asking) => {
            begin_asking(alloc, &*runtime, &*objects, begun, asking, me, args, steps)
        },
    }
}
