//! Main of a linked kernel run from start to end.

ghost use Rattle.som_machine_laws.specs.Counted.{IsSearchFree};
ghost use Rattle.som_interp_loop.specs.Counted.{AreBounded, IsBounded};
ghost use Rattle.som_interp_task.specs.Run.{Counts, CountsRun, CountsRunSearches, LeavesFuel, StaysCalm};
ghost use Rattle.som_interp_task.specs.Stands.{Stands};
ghost use Rattle.som_semantics.specs.Means.{means_in};
ghost use Rattle.som_interp_loop.specs.Scene.{scene};
ghost use Rattle.som_objects.specs.Objects.{Objects};
ghost use Rattle.som_exec.specs.Runs.{CountsMain, RunsMain};
ghost use Rattle.som_trace.specs.Filters.{shows_of};
ghost use Rattle.std.specs.Prelude.{◌≡◌, [], false};

use crate::{Finished, Machine};
use som_host::HostTable;
use som_interp_state::Runtime;
use som_interp_task::{Outcome, Task, start};
use som_io::Sink;
use som_model::{NoMemory, Text};
use som_objects::ObjectStore;
use som_tables::Steps;
use som_trace::TraceFilter;
use std::alloc::Global;
use std::sync::ledger::Ledger;

/// Runs the main of a linked kernel by this fuel, with objects of its own: it answers the end of what main means, and
/// tells its text, or a front of it where memory was wanting or the sink failed. The classes that were used are made,
/// and the kernel is else as it was. Where no block searches for a name and no class that is made by the end has hooks,
/// at most two steps are counted for each call event, and two more. Where blocks search, and no class that is made by the
/// end has hooks, or more than n ancestors, n more are counted at most for each event that came by a name and for each of a
/// method that asks for one, and 2 n more. After SinkFailed and NoMemory it is so for a front of them alone, whose lines
/// were told.
pub fn run<R: Runtime, K: Sink, L: Ledger>(
    alloc: Global,
    runtime: &mut R,
    fuel: u32,
    trace: &TraceFilter,
    host: &HostTable,
    out: &mut K,
    steps: &mut Steps<L>,
) -> Outcome
    ensures runs { RunsMain (R.world runtime.old) (R.program runtime.old) fuel (shows_of trace.now) (K.written out.old) (K.written out.new) (R.known runtime.old).classes (R.made runtime.old) (R.made runtime.new) result }
    ensures steps { CountsRun (IsSearchFree (R.known runtime.old).classes (R.program runtime.old) (R.made runtime.new)) (means_in (R.world runtime.old) (R.program runtime.old) fuel) (shows_of trace.now) [] (K.written out.old) (K.written out.new) steps.old steps.new result }
    ensures searches { CountsRunSearches (AreBounded (R.known runtime.old).classes (R.made runtime.new)) (means_in (R.world runtime.old) (R.program runtime.old) fuel) (shows_of trace.now) [] (K.written out.old) (K.written out.new) steps.old steps.new result }

    ensures counts { Counts (K.faults out.old) (K.faults out.new) result }
    ensures calms { StaysCalm (K.calm out.old) (K.calm out.new) (K.faults out.old) (K.faults out.new) result }

    ensures keys { R.keys runtime.new ≡ R.keys runtime.old }
    ensures world { R.world runtime.new ≡ R.world runtime.old }
    ensures known { R.known runtime.new ≡ R.known runtime.old }
    ensures linked { R.linked runtime.new ≡ R.linked runtime.old }
    ensures program { R.program runtime.new ≡ R.program runtime.old }
{
    let Finished { outcome, left: _ } = finish(alloc, runtime, fuel, trace, host, out, steps);
    outcome
}

/// As `run`, and where main is over it answers the units too that are left of the fuel, which are those that main's
/// meaning leaves.
pub fn finish<R: Runtime, K: Sink, L: Ledger>(
    alloc: Global,
    runtime: &mut R,
    fuel: u32,
    trace: &TraceFilter,
    host: &HostTable,
    out: &mut K,
    steps: &mut Steps<L>,
) -> Finished
    ensures runs { RunsMain (R.world runtime.old) (R.program runtime.old) fuel (shows_of trace.now) (K.written out.old) (K.written out.new) (R.known runtime.old).classes (R.made runtime.old) (R.made runtime.new) result.outcome }
    ensures left { LeavesFuel (means_in (R.world runtime.old) (R.program runtime.old) fuel) result.left result.outcome }
    ensures steps { CountsMain (IsSearchFree (R.known runtime.old).classes (R.program runtime.old) (R.made runtime.new)) (AreBounded (R.known runtime.old).classes (R.made runtime.new)) (means_in (R.world runtime.old) (R.program runtime.old) fuel) (shows_of trace.now) (K.written out.old) (K.written out.new) steps.old steps.new result.outcome }

    ensures counts { Counts (K.faults out.old) (K.faults out.new) result.outcome }
    ensures calms { StaysCalm (K.calm out.old) (K.calm out.new) (K.faults out.old) (K.faults out.new) result.outcome }

    ensures keys { R.keys runtime.new ≡ R.keys runtime.old }
    ensures world { R.world runtime.new ≡ R.world runtime.old }
    ensures known { R.known runtime.new ≡ R.known runtime.old }
    ensures linked { R.linked runtime.new ≡ R.linked runtime.old }
    ensures program { R.program runtime.new ≡ R.program runtime.old }
{
    runtime.know();
    match start(alloc, &*runtime) {
        Ok(started) => {
            let finished = run_task(alloc, started, runtime, fuel, trace, host, out, steps);
            runtime.know();
            finished
        },
        Err(NoMemory) => Finished {
            outcome: Outcome::NoMemory,
            left: 0,
        },
    }
}

// Runs a task that was just started, with objects of its own.
fn run_task<'a, R: Runtime, K: Sink, L: Ledger>(
    alloc: Global,
    task: Task,
    runtime: &'a mut R,
    fuel: u32,
    trace: &'a TraceFilter,
    host: &'a HostTable,
    out: &'a mut K,
    steps: &'a mut Steps<L>,
) -> Finished
    requires stands { (os : Objects) → Stands (scene (R.linked runtime.old) (R.known runtime.old) (R.program runtime.old) (R.made runtime.old) os task.task 0) }
    requires granted { task.task.granted ≡ 0 }
    requires begun { task.task.begun ≡ false }
    ensures runs { RunsMain (R.linked runtime.old).world (R.program runtime.old) fuel (shows_of trace.now) (K.written out.old) (K.written out.new) (R.known runtime.old).classes (R.made runtime.old) (R.made runtime.new) result.outcome }
    ensures left { LeavesFuel (means_in (R.linked runtime.old).world (R.program runtime.old) fuel) result.left result.outcome }
    ensures steps { CountsRunSearches (IsBounded (R.linked runtime.old).world (R.known runtime.old).classes (R.program runtime.old) (R.made runtime.new)) (means_in (R.linked runtime.old).world (R.program runtime.old) fuel) (shows_of trace.now) [] (K.written out.old) (K.written out.new) steps.old steps.new result.outcome }

    ensures counts { Counts (K.faults out.old) (K.faults out.new) result.outcome }
    ensures calms { StaysCalm (K.calm out.old) (K.calm out.new) (K.faults out.old) (K.faults out.new) result.outcome }

    ensures known { R.known runtime.new ≡ R.known runtime.old }
    ensures linked { R.linked runtime.new ≡ R.linked runtime.old }
    ensures program { R.program runtime.new ≡ R.program runtime.old }
{
    let Task { mut task, live: _ } = task;
    let mut objects = ObjectStore::new(alloc);
    let prefix = Text::from_vec(Vec::new(alloc));
    let mut machine = Machine {
        alloc,
        runtime,
        task: &mut task,
        objects: &mut objects,
        host,
        trace,
        prefix: &prefix,
        fuel: 0,
        out,
        steps,
    };
    let outcome = som_interp_task::run(&mut machine, fuel);
    Finished {
        outcome,
        left: machine.fuel,
    }
}
