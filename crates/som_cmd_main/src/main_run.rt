//! Starts the interpreter on main with the trace that is asked for, and answers the status.

ghost use Rattle.som_interp_task.specs.Run.{LeavesFuel};
ghost use Rattle.som_interp_task.specs.declared.outcome.Outcome.TheVariants as outcomes;
ghost use Rattle.som_semantics.specs.Means.{means_in};
ghost use Rattle.som_semantics.specs.RunText.{calls_of, every_call, no_trace};
ghost use Rattle.som_cmd_main.specs.Mains.{EndsMain, RunsTraced, outcome_status};
ghost use Rattle.som_cmd_main.specs.Traces.{shown_in};
ghost use Rattle.std.specs.Prelude.{IfOk, OnErr, ◌≡◌, ◌≢◌, ◌≤◌};

use crate::filtered::run_filtered;
use crate::trace::Trace;
use som_exec::Finished;
use som_host::HostTable;
use som_interp_state::Runtime;
use som_interp_task::Outcome;
use som_io::Sink;
use som_model::{NoMemory, Text};
use som_trace::{TraceChoice, trace_filter};
use std::alloc::Global;

/// Runs main, shows no call, and answers what it came to, and what is left of the fuel where main is over.
pub fn run_unseen<R: Runtime, K: Sink>(
    alloc: Global,
    runtime: &mut R,
    fuel: u32,
    host: &HostTable,
    out: &mut K,
) -> Result<Finished, NoMemory>
    ensures runs { IfOk result (λ finished. RunsTraced (R.world runtime.old) (R.program runtime.old) fuel no_trace (K.faults out.old) (K.faults out.new) (K.written out.old) (K.written out.new) finished.outcome) }
    ensures left { IfOk result (λ finished. LeavesFuel (means_in (R.world runtime.old) (R.program runtime.old) fuel) finished.left finished.outcome) }
    ensures later { K.faults out.old ≤ K.faults out.new }
    ensures stays_calm { K.calm out.old → K.calm out.new }
    ensures untold { OnErr result (K.written out.new ≡ K.written out.old) }
    ensures calm { K.calm out.old → IfOk result (λ finished. finished.outcome ≢ outcomes.SinkFailed) }
{
    let filter = trace_filter(TraceChoice::Nothing, Box::new(alloc, |_name: &Text| false)?);
    Ok(run_filtered(alloc, runtime, fuel, &filter, host, out))
}

// Runs main, and shows each call.
fn run_seen<R: Runtime, K: Sink>(
    alloc: Global,
    runtime: &mut R,
    fuel: u32,
    host: &HostTable,
    out: &mut K,
) -> Result<Finished, NoMemory>
    ensures runs { IfOk result (λ finished. RunsTraced (R.world runtime.old) (R.program runtime.old) fuel every_call (K.faults out.old) (K.faults out.new) (K.written out.old) (K.written out.new) finished.outcome) }
    ensures untold { OnErr result (K.written out.new ≡ K.written out.old) }
    ensures calm { K.calm out.old → IfOk result (λ finished. finished.outcome ≢ outcomes.SinkFailed) }
{
    let filter = trace_filter(TraceChoice::Every, Box::new(alloc, |_name: &Text| true)?);
    Ok(run_filtered(alloc, runtime, fuel, &filter, host, out))
}

// Runs main, and shows the calls of bodies of classes of a name.
fn run_class_seen<R: Runtime, K: Sink>(
    alloc: Global,
    runtime: &mut R,
    fuel: u32,
    class: &Text,
    host: &HostTable,
    out: &mut K,
) -> Result<Finished, NoMemory>
    ensures runs { IfOk result (λ finished. RunsTraced (R.world runtime.old) (R.program runtime.old) fuel (calls_of class.now) (K.faults out.old) (K.faults out.new) (K.written out.old) (K.written out.new) finished.outcome) }
    ensures untold { OnErr result (K.written out.new ≡ K.written out.old) }
    ensures calm { K.calm out.old → IfOk result (λ finished. finished.outcome ≢ outcomes.SinkFailed) }
{
    let wanted = class.copy(alloc)?;
    let filter = trace_filter(
        TraceChoice::Only(class.copy(alloc)?),
        Box::new(alloc, move |name: &Text| wanted.is(name.as_slice()))?,
    );
    Ok(run_filtered(alloc, runtime, fuel, &filter, host, out))
}

// Runs main, and shows the calls that a trace asks for.
fn run_traced<R: Runtime, K: Sink>(
    alloc: Global,
    runtime: &mut R,
    fuel: u32,
    trace: Trace<'_>,
    host: &HostTable,
    out: &mut K,
) -> Result<Finished, NoMemory>
    ensures runs { IfOk result (λ finished. RunsTraced (R.world runtime.old) (R.program runtime.old) fuel (shown_in trace.entry) (K.faults out.old) (K.faults out.new) (K.written out.old) (K.written out.new) finished.outcome) }
    ensures untold { OnErr result (K.written out.new ≡ K.written out.old) }
    ensures calm { K.calm out.old → IfOk result (λ finished. finished.outcome ≢ outcomes.SinkFailed) }
{
    match trace {
        Trace::Nothing => run_unseen(alloc, runtime, fuel, host, out),
        Trace::Every => run_seen(alloc, runtime, fuel, host, out),
        Trace::Only(class) => run_class_seen(alloc, runtime, fuel, class, host, out),
    }
}

// The status of an outcome.
fn status_of(outcome: &Outcome) -> u8
    ensures { result ≡ outcome_status outcome.now }
{
    match outcome {
        Outcome::Done => 0,
        Outcome::SourceFault { .. } => 1,
        Outcome::Spent => 9,
        Outcome::SinkFailed => 8,
        Outcome::NoMemory => 10,
    }
}

/// Runs the main of a linked kernel with so much fuel, shows the calls that a trace asks for, and answers the status.
#[tactic(auto, using(crate::proofs::Ending::calmly))]
pub fn run_main<R: Runtime, K: Sink>(
    alloc: Global,
    runtime: &mut R,
    fuel: u32,
    trace: Trace<'_>,
    host: &HostTable,
    out: &mut K,
) -> u8
    ensures ends { EndsMain (R.world runtime.old) (R.program runtime.old) fuel (shown_in trace.entry) (K.faults out.old) (K.faults out.new) (K.written out.old) (K.written out.new) result }
    ensures calm { K.calm out.old → result ≢ 8 }
{
    match run_traced(alloc, runtime, fuel, trace, host, out) {
        Ok(finished) => status_of(&finished.outcome),
        Err(_) => 10,
    }
}
