//! A task over a linked kernel that goes on by the units granted to it.

ghost use Rattle.som_machine_laws.specs.Counted.{IsSearchFree};
ghost use Rattle.som_interp_loop.specs.Counted.{AreBounded, IsBounded};
ghost use Rattle.som_interp_task.specs.Advance.{Comes, Counts, CountsNow, CountsSearches, StaysCalm};
ghost use Rattle.som_interp_task.specs.Stands.{IsStanding, Stands};
ghost use Rattle.som_interp_loop.specs.Scene.{scene};
ghost use Rattle.som_exec.specs.Going.{is_going as can_go_on};
ghost use Rattle.som_exec.specs.Runs.{CountsAdvance};
ghost use Rattle.som_trace.specs.Filters.{shows_of};
ghost use Rattle.std.specs.Prelude.{◌≡◌, ◌<◌, ◌+◌, ◌^◌, true};

use crate::Machine;
use som_host::HostTable;
use som_interp_state::Runtime;
use som_interp_task::{Advanced, Task};
use som_io::Sink;
use som_model::Text;
use som_objects::ObjectStore;
use som_tables::Steps;
use som_trace::TraceFilter;
use std::alloc::Global;
use std::sync::ledger::Ledger;

/// Grants units to a live task that stands, and goes on until its main is over, it has a fault, or no unit is left. What
/// it comes to is what main means with the units granted before and these. The task is live where it can be gone on with.
/// Where no block searches for a name and no class that is made by then has hooks, at most two steps are counted for each
/// call event that comes now, and two more. Where blocks search, and no class that is made by then has hooks, or more than n
/// ancestors, n more are counted at most for each event that came by a name and for each of a method that asks for one, and
/// 2 n more. After SinkFailed and NoMemory it is so for a front of these events alone, whose lines were told.
pub fn advance<R: Runtime, K: Sink, L: Ledger>(
    alloc: Global,
    task: &mut Task,
    runtime: &mut R,
    units: u32,
    objects: &mut ObjectStore,
    trace: &TraceFilter,
    host: &HostTable,
    prefix: &Text,
    out: &mut K,
    steps: &mut Steps<L>,
) -> Advanced
    requires live { task.old.live ≡ true }
    requires stands { IsStanding (R.linked runtime.old) (R.known runtime.old) (R.program runtime.old) (R.made runtime.old) objects.old task.old }
    requires units { task.old.task.granted + units < 2 ^ 32 }
    ensures comes { Comes (scene (R.linked runtime.old) (R.known runtime.old) (R.program runtime.old) (R.made runtime.old) objects.old task.old.task 0) units (shows_of trace.now) prefix.now (K.written out.old) (K.written out.new)
        (scene (R.linked runtime.new) (R.known runtime.new) (R.program runtime.new) (R.made runtime.new) objects.new task.new.task 0) result }
    ensures live { task.new.live ≡ can_go_on result }
    ensures steps { CountsAdvance (IsSearchFree (R.known runtime.old).classes (R.program runtime.old) (R.made runtime.new)) (AreBounded (R.known runtime.old).classes (R.made runtime.new)) (scene (R.linked runtime.old) (R.known runtime.old) (R.program runtime.old) (R.made runtime.old) objects.old task.old.task 0) units
        (shows_of trace.now) prefix.now (K.written out.old) (K.written out.new) steps.old steps.new result }
    ensures counts { Counts (K.faults out.old) (K.faults out.new) result }
    ensures calms { StaysCalm (K.calm out.old) (K.calm out.new) (K.faults out.old) (K.faults out.new) result }
{
    runtime.know();
    let answer = go_on(
        alloc,
        &mut task.task,
        runtime,
        units,
        objects,
        trace,
        host,
        prefix,
        out,
        steps,
    );
    task.live = is_going(&answer);
    answer
}

// The units are granted to the state of a task, and it goes on.
fn go_on<'a, R: Runtime, K: Sink, L: Ledger>(
    alloc: Global,
    task: &'a mut som_interp_state::Task,
    runtime: &'a mut R,
    units: u32,
    objects: &'a mut ObjectStore,
    trace: &'a TraceFilter,
    host: &'a HostTable,
    prefix: &'a Text,
    out: &'a mut K,
    steps: &'a mut Steps<L>,
) -> Advanced
    requires stands { Stands (scene (R.linked runtime.old) (R.known runtime.old) (R.program runtime.old) (R.made runtime.old) objects.old task.old 0) }
    requires units { task.old.granted + units < 2 ^ 32 }
    ensures comes { Comes (scene (R.linked runtime.old) (R.known runtime.old) (R.program runtime.old) (R.made runtime.old) objects.old task.old 0) units (shows_of trace.now) prefix.now (K.written out.old) (K.written out.new)
        (scene (R.linked runtime.new) (R.known runtime.new) (R.program runtime.new) (R.made runtime.new) objects.new task.new 0) result }
    ensures steps { CountsSearches (IsBounded (R.linked runtime.old).world (R.known runtime.old).classes (R.program runtime.old) (R.made runtime.new)) (scene (R.linked runtime.old) (R.known runtime.old) (R.program runtime.old) (R.made runtime.old) objects.old task.old 0) units
        (shows_of trace.now) prefix.now (K.written out.old) (K.written out.new) steps.old steps.new result }
    ensures counts { Counts (K.faults out.old) (K.faults out.new) result }
    ensures calms { StaysCalm (K.calm out.old) (K.calm out.new) (K.faults out.old) (K.faults out.new) result }
{
    let mut machine = Machine {
        alloc,
        runtime,
        task,
        objects,
        host,
        trace,
        prefix,
        fuel: 0,
        out,
        steps,
    };
    som_interp_task::advance(&mut machine, units)
}

// Whether a task can be gone on with after this.
fn is_going(answer: &Advanced) -> bool
    ensures { result ≡ can_go_on answer.now }
{
    match answer {
        Advanced::Going => true,
        Advanced::Done => false,
        Advanced::SourceFault { .. } => false,
        Advanced::SinkFailed => false,
        Advanced::NoMemory => false,
    }
}
