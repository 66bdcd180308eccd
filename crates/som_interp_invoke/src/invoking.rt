//! The next body of a call invoked, with its unit of fuel and its trace line.

ghost use Rattle.som_code.specs.declared.instruction.Instruction.{Instruction};
ghost use Rattle.som_machine_laws.specs.Counted.{AreWithoutHooks, first_looks};
ghost use Rattle.som_machine_laws.specs.Direct.{AreDirect};
ghost use Rattle.som_io.specs.Outside.{Rose};
ghost use Rattle.som_interp_loop.specs.Counted.{bodies_look};
ghost use Rattle.som_interp_loop.specs.Scene.{scene};
ghost use Rattle.som_interp_loop.specs.declared.stop.Stop.TheVariants as stops;
ghost use Rattle.som_interp_state.specs.Named.{setting};
ghost use Rattle.som_interp_invoke.specs.Chosen.{IsInvoking};
ghost use Rattle.som_interp_invoke.specs.Stepping.{Invoked, IsStanding};
ghost use Rattle.som_interp_state.specs.Standing.{left_shown};
ghost use Rattle.som_interp_state.specs.declared.call.Left.{Left as Bodies};
ghost use Rattle.som_interp_state.specs.declared.frames.Now.TheVariants as nows;
ghost use Rattle.som_objects.specs.declared.cell.Cell.{Cell as Value};
ghost use Rattle.som_trace.specs.Filters.{shows_of};
ghost use Rattle.som_interp_state.specs.Asked.{HaveAncestors};
ghost use Rattle.std.specs.Prelude.{◌≡◌, ◌≢◌, ◌≤◌, ◌<◌, ◌+◌, Err, List, ℕ};

use crate::begin;
use crate::planning::plan;
use crate::taking::{take, take_answer};
use som_interp_loop::Stop;
use som_interp_state::{Left, Now, Runtime, Task};
use som_io::Sink;
use som_model::Text;
use som_objects::ObjectStore;
use som_tables::Steps;
use som_trace::TraceFilter;
use std::alloc::Global;
use std::sync::ledger::Ledger;

/// The next body of a call is invoked: its test is passed, a unit is taken, its line is told where the filter shows it,
/// and it begins; where no body is left, the call answers. Where no unit is left, all is as it was. A body takes two steps
/// at most where no class that is made has hooks and the body looks nothing up by its name, and else no more than a class
/// that is made has ancestors besides.
pub fn invoke<R: Runtime, K: Sink, L: Ledger>(
    alloc: Global,
    runtime: &mut R,
    task: &mut Task,
    objects: &mut ObjectStore,
    trace: &TraceFilter,
    prefix: &Text,
    fuel: &mut u32,
    out: &mut K,
    steps: &mut Steps<L>,
) -> Result<Now, Stop>
    requires invoking { IsInvoking task.old.frames.now }
    requires standing { IsStanding (scene (R.linked runtime.old) (R.known runtime.old) (R.program runtime.old) (R.made runtime.old) objects.old task.old fuel.old) task.old.frames.now }
    ensures linked { R.linked runtime.new ≡ R.linked runtime.old }
    ensures known { R.known runtime.new ≡ R.known runtime.old }
    ensures program { R.program runtime.new ≡ R.program runtime.old }
    ensures invoked { Invoked (shows_of trace.now) prefix.now (K.written out.old) (K.written out.new)
        (scene (R.linked runtime.old) (R.known runtime.old) (R.program runtime.old) (R.made runtime.old) objects.old task.old fuel.old)
        (scene (R.linked runtime.new) (R.known runtime.new) (R.program runtime.new) (R.made runtime.new) objects.new task.new fuel.new) result }
    ensures spent { result ≡ Err stops.Spent → (runtime.new ≡ runtime.old) × (task.new ≡ task.old) × (objects.new ≡ objects.old) × (fuel.new ≡ fuel.old) × (K.written out.new ≡ K.written out.old) }
    ensures steps { (left : Bodies) (cell : Value) (xs : List ℕ) (cs : List (List Instruction)) → task.old.frames.now ≡ nows.Invoking left cell
        → AreDirect (R.linked runtime.old).world (left_shown (setting (R.linked runtime.old) xs cs) left) → AreWithoutHooks (R.linked runtime.old).world (R.made runtime.old)
        → steps.new ≤ steps.old + first_looks (left_shown (setting (R.linked runtime.old) xs cs) left) }
    ensures searches { (left : Bodies) (cell : Value) (xs : List ℕ) (cs : List (List Instruction)) (n : ℕ) → task.old.frames.now ≡ nows.Invoking left cell
        → AreWithoutHooks (R.linked runtime.old).world (R.made runtime.old) → HaveAncestors (R.known runtime.old).classes (R.made runtime.old) n
        → steps.new ≤ steps.old + bodies_look n (left_shown (setting (R.linked runtime.old) xs cs) left) }

    ensures later { K.faults out.old ≤ K.faults out.new }
    ensures cause { result ≡ Err stops.SinkFailed → Rose (K.faults out.old) (K.faults out.new) }

    ensures calm_stays { K.calm out.old → K.calm out.new }
    ensures calm_count { K.calm out.old → K.faults out.new ≡ K.faults out.old }
    ensures calm_answer { K.calm out.old → result ≢ Err stops.SinkFailed }
{
    runtime.know();
    let left = left_of(&task.frames.now);
    let planned = plan(
        alloc,
        &*runtime,
        &mut task.codes,
        &*objects,
        left,
        trace,
        prefix,
        fuel,
        out,
        steps,
    )?;
    let Some(plan) = planned else {
        return Ok(Now::Answering(take_answer(&mut task.frames)));
    };
    let taken = take(alloc, &*runtime, &mut task.frames, plan.role, plan.rest)?;
    begin(
        alloc,
        runtime,
        task,
        objects,
        taken.levels,
        plan.begun,
        taken.me,
        taken.args,
        steps,
    )
}

// The bodies that are left.
fn left_of(now: &Now) -> &Left
    requires { IsInvoking now.now }
    ensures { (left : Bodies) (cell : Value) → now.now ≡ nows.Invoking left cell → result.now ≡ left }
{
    match now {
        Now::Invoking { left, .. } => left,
        Now::Running(_) | Now::Calling { .. } | Now::Answering(_) => unreachable!(),
    }
}
