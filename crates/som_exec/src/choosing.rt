//! One step of a task, whatever is next in it.

ghost use Rattle.som_interp_loop.specs.Counted.{Counted};
ghost use Rattle.som_interp_loop.specs.Standing.{IsSomewhere};
ghost use Rattle.som_interp_loop.specs.Stepped.{Counts, StaysCalm, Stepped};
ghost use Rattle.som_exec.specs.Doing.{Does, IsKind, untold as sinkless};
ghost use Rattle.som_interp_loop.specs.Scene.{scene};
ghost use Rattle.som_trace.specs.Filters.{shows_of};
ghost use Rattle.std.specs.Prelude.{◌≡◌, Some};

use crate::back::put_back;
use crate::calling::call_next;
use crate::instruction_step::obey_next;
use crate::invoking::{invoke_next, make_next};
use crate::kind::{Kind, kind_of};
use crate::resuming::resume_next;
use som_host::HostTable;
use som_interp_loop::Stop;
use som_interp_state::{Now, Runtime, Task};
use som_io::Sink;
use som_model::Text;
use som_objects::ObjectStore;
use som_tables::Steps;
use som_trace::TraceFilter;
use std::alloc::Global;
use std::sync::ledger::Ledger;

/// One step of a task: it goes on, or, answering false, main is over; where no unit is left for it, all is as it was.
pub fn step_next<R: Runtime, K: Sink, L: Ledger>(
    alloc: Global,
    runtime: &mut R,
    task: &mut Task,
    objects: &mut ObjectStore,
    host: &HostTable,
    trace: &TraceFilter,
    prefix: &Text,
    fuel: &mut u32,
    out: &mut K,
    steps: &mut Steps<L>,
) -> Result<bool, Stop>
    requires { IsSomewhere (scene (R.linked runtime.old) (R.known runtime.old) (R.program runtime.old) (R.made runtime.old) objects.old task.old fuel.old) }
    ensures stepped { Stepped (shows_of trace.now) prefix.now (K.written out.old) (K.written out.new)
        (scene (R.linked runtime.old) (R.known runtime.old) (R.program runtime.old) (R.made runtime.old) objects.old task.old fuel.old)
        (scene (R.linked runtime.new) (R.known runtime.new) (R.program runtime.new) (R.made runtime.new) objects.new task.new fuel.new) result }
    ensures counted { Counted (scene (R.linked runtime.old) (R.known runtime.old) (R.program runtime.old) (R.made runtime.old) objects.old task.old fuel.old) steps.old steps.new }
    ensures counts { Counts (K.faults out.old) (K.faults out.new) result }
    ensures calms { StaysCalm (K.calm out.old) (K.calm out.new) (K.faults out.old) (K.faults out.new) result }
{
    match kind_of(&*task) {
        None => Ok(false),
        Some(kind) => {
            let answer = do_next(
                alloc, runtime, task, objects, host, trace, prefix, fuel, out, steps, kind,
            );
            put_back(task, answer)
        },
    }
}

// Does what is next in a task, which isn't over. What is next then is answered.
pub(crate) fn do_next<R: Runtime, K: Sink, L: Ledger>(
    alloc: Global,
    runtime: &mut R,
    task: &mut Task,
    objects: &mut ObjectStore,
    host: &HostTable,
    trace: &TraceFilter,
    prefix: &Text,
    fuel: &mut u32,
    out: &mut K,
    steps: &mut Steps<L>,
    kind: Kind,
) -> Result<Now, Stop>
    requires somewhere { IsSomewhere (scene (R.linked runtime.old) (R.known runtime.old) (R.program runtime.old) (R.made runtime.old) objects.old task.old fuel.old) }
    requires kind { IsKind task.old (Some kind) }
    ensures does { Does (shows_of trace.now) prefix.now (K.written out.old) (K.written out.new)
        (scene (R.linked runtime.old) (R.known runtime.old) (R.program runtime.old) (R.made runtime.old) objects.old task.old fuel.old)
        (scene (R.linked runtime.new) (R.known runtime.new) (R.program runtime.new) (R.made runtime.new) objects.new task.new fuel.new)
        (K.faults out.old) (K.faults out.new) (K.calm out.old) (K.calm out.new) result }
    ensures counted { Counted (scene (R.linked runtime.old) (R.known runtime.old) (R.program runtime.old) (R.made runtime.old) objects.old task.old fuel.old) steps.old steps.new }
{
    match kind {
        Kind::Calls => untold(call_next(alloc, runtime, task, &*objects, steps)),
        Kind::Obeys => obey_next(alloc, runtime, task, objects, host, prefix, fuel, out),
        Kind::Makes => untold(make_next(&*runtime, task, &*objects)),
        Kind::Invokes => invoke_next(
            alloc, runtime, task, objects, trace, prefix, fuel, out, steps,
        ),
        Kind::Resumes => untold(resume_next(alloc, &*runtime, task, objects, steps)),
    }
}

/// The answer of a step that tells no line: a sink that failed counts as want of memory.
#[inline(always)]
pub(crate) fn untold(answer: Result<Now, Stop>) -> Result<Now, Stop>
    ensures { result ≡ sinkless answer }
{
    match answer {
        Err(Stop::SinkFailed) => Err(Stop::NoMemory),
        Ok(now) => Ok(now),
        Err(Stop::Fault { fault, at }) => Err(Stop::Fault { fault, at }),
        Err(Stop::Spent) => Err(Stop::Spent),
        Err(Stop::NoMemory) => Err(Stop::NoMemory),
    }
}
