//! Starts the interpreter on main with a trace filter, and counts the steps of look-ups.

ghost use Rattle.som_interp_task.specs.Run.{LeavesFuel};
ghost use Rattle.som_interp_task.specs.declared.outcome.Outcome.TheVariants as outcomes;
ghost use Rattle.som_semantics.specs.Means.{means_in};
ghost use Rattle.som_cmd_main.specs.Mains.{RunsTraced};
ghost use Rattle.som_trace.specs.Filters.{shows_of};
ghost use Rattle.std.specs.Prelude.{◌<◌, ◌≡◌, ◌≢◌, ◌≤◌};

use som_exec::{Finished, finish};
use som_host::HostTable;
use som_interp_state::Runtime;
use som_io::Sink;
use som_tables::Steps;
use som_trace::TraceFilter;
use std::alloc::Global;
use std::marker::Brand;
use std::sync::ledger::{Blank, Ledger};

/// Runs main, shows the calls that a filter shows, and answers what it came to and what is left of the fuel.
pub(crate) fn run_filtered<R: Runtime, K: Sink>(
    alloc: Global,
    runtime: &mut R,
    fuel: u32,
    filter: &TraceFilter,
    host: &HostTable,
    out: &mut K,
) -> Finished
    ensures runs { RunsTraced (R.world runtime.old) (R.program runtime.old) fuel (shows_of filter.now) (K.faults out.old) (K.faults out.new) (K.written out.old) (K.written out.new) result.outcome }
    ensures left { LeavesFuel (means_in (R.world runtime.old) (R.program runtime.old) fuel) result.left result.outcome }
    ensures later { K.faults out.old ≤ K.faults out.new }
    ensures stays_calm { K.calm out.old → K.calm out.new }
    ensures calm { K.calm out.old → result.outcome ≢ outcomes.SinkFailed }
{
    run_counted::<Brand, R, K>(alloc, runtime, fuel, filter, host, out, Blank::new(1))
}

// Runs main with a filter, and counts the steps of look-ups.
fn run_counted<L: Ledger, R: Runtime, K: Sink>(
    alloc: Global,
    runtime: &mut R,
    fuel: u32,
    filter: &TraceFilter,
    host: &HostTable,
    out: &mut K,
    blank: Blank,
) -> Finished
    requires name { blank.name ≡ L.name }
    requires parts { blank.parts ≡ L.parts }
    requires some { 0 < blank.parts }
    ensures runs { RunsTraced (R.world runtime.old) (R.program runtime.old) fuel (shows_of filter.now) (K.faults out.old) (K.faults out.new) (K.written out.old) (K.written out.new) result.outcome }
    ensures left { LeavesFuel (means_in (R.world runtime.old) (R.program runtime.old) fuel) result.left result.outcome }
    ensures later { K.faults out.old ≤ K.faults out.new }
    ensures stays_calm { K.calm out.old → K.calm out.new }
    ensures calm { K.calm out.old → result.outcome ≢ outcomes.SinkFailed }
{
    let mut steps: Steps<L> = Steps::new(blank);
    finish(alloc, runtime, fuel, filter, host, out, &mut steps)
}
