//! All turns of several clients, from the start of their tasks to their ends.

ghost use Rattle.som_semantics.specs.RunText.{no_trace};
ghost use Rattle.som_tasks.specs.Answered.{turned_by};
ghost use Rattle.som_tasks.specs.Started.{AreStarted};
ghost use Rattle.som_tasks.specs.Taken.{AreKept, Counts, StaysCalm, TakesTurns, clients_of};
ghost use Rattle.som_trace.specs.Filters.{shows_of};
ghost use Rattle.som_turn_laws.specs.Turns.{turns_of};
ghost use Rattle.std.specs.List.{All};
ghost use Rattle.std.specs.Prelude.{◌≡◌, ◌<◌, ◌^◌, ℕ, length};

use crate::Turned;
use crate::all_turns::turn_listed;
use crate::client::Client;
use crate::starting::{going_ends, start_clients};
use som_exec::{Advanced, TraceChoice, TraceFilter, trace_filter};
use som_host::HostTable;
use som_interp_state::Runtime;
use som_io::Sink;
use som_model::{List, Text};
use som_objects::ObjectStore;
use som_tables::Steps;
use som_trace::Untold;
use std::alloc::Global;
use std::sync::ledger::Ledger;

// Gives the turns to clients that were just started, and answers the end of each.
fn turn_started<R: Runtime + Drop, K: Sink, L: Ledger>(
    alloc: Global,
    kernels: &mut List<R>,
    clients: &mut [Client],
    turns: &[u8],
    objects: &mut ObjectStore,
    trace: &TraceFilter,
    host: &HostTable,
    out: &mut K,
    steps: &mut Steps<L>,
) -> Result<List<Advanced>, Untold>
    requires unseen { shows_of trace.now ≡ no_trace }
    requires places { All (λ turn. turn < length kernels.old) turns.now }
    requires units { (i : ℕ) → turns_of i turns.now < 2 ^ 32 }
    requires started { AreStarted R.world R.linked R.known R.program R.made kernels.old clients.old }
    ensures turns { TakesTurns (clients_of R.world R.program kernels.old) (length kernels.old) turns.now (K.written out.old) (K.written out.new) objects.old objects.new (turned_by result) }
    ensures kept { AreKept R.keys R.world R.known R.linked R.program kernels.old kernels.new }
    ensures counts { Counts (K.faults out.old) (K.faults out.new) (turned_by result) }
    ensures calms { StaysCalm (K.calm out.old) (K.calm out.new) (K.faults out.old) (K.faults out.new) (turned_by result) }
{
    let mut ends = going_ends(alloc, clients.len())?;
    turn_listed(
        alloc,
        kernels,
        clients,
        ends.as_mut_slice(),
        turns,
        objects,
        trace,
        host,
        out,
        steps,
    )?;
    Ok(List::from_vec(ends))
}

// Starts a client for each kernel, before the first turn, and gives the turns to them.
fn start_and_turn<R: Runtime + Drop, K: Sink, L: Ledger>(
    alloc: Global,
    kernels: &mut List<R>,
    turns: &[u8],
    objects: &mut ObjectStore,
    host: &HostTable,
    out: &mut K,
    steps: &mut Steps<L>,
) -> Result<List<Advanced>, Untold>
    requires places { All (λ turn. turn < length kernels.old) turns.now }
    requires units { (i : ℕ) → turns_of i turns.now < 2 ^ 32 }
    ensures turns { TakesTurns (clients_of R.world R.program kernels.old) (length kernels.old) turns.now (K.written out.old) (K.written out.new) objects.old objects.new (turned_by result) }
    ensures kept { AreKept R.keys R.world R.known R.linked R.program kernels.old kernels.new }
    ensures counts { Counts (K.faults out.old) (K.faults out.new) (turned_by result) }
    ensures calms { StaysCalm (K.calm out.old) (K.calm out.new) (K.faults out.old) (K.faults out.new) (turned_by result) }
{
    let shows = match Box::new(alloc, |_name: &Text| false) {
        Ok(shows) => shows,
        Err(_) => return Err(Untold::NoMemory),
    };
    let trace = trace_filter(TraceChoice::Nothing, shows);
    let mut clients = start_clients(alloc, kernels.as_slice())?;
    turn_started(
        alloc,
        kernels,
        clients.as_mut_slice(),
        turns,
        objects,
        &trace,
        host,
        out,
        steps,
    )
}

/// Gives turns to the clients of linked kernels, which share a store of objects and a sink: each turn is the place of a
/// kernel, whose client goes on by one unit, or rests where it has ended. All tasks are started before the first turn. Each
/// line of the client of number I has the prefix `I: `, and no call is shown. Where all turns were taken each client has the
/// end that its main has alone with as many units as it had turns, Going where they were spent or there were none.
pub fn run_turns<R: Runtime + Drop, K: Sink, L: Ledger>(
    alloc: Global,
    kernels: &mut List<R>,
    turns: &List<u8>,
    objects: &mut ObjectStore,
    host: &HostTable,
    out: &mut K,
    steps: &mut Steps<L>,
) -> Turned
    requires places { All (λ turn. turn < length kernels.old) turns.now }
    requires units { (i : ℕ) → turns_of i turns.now < 2 ^ 32 }
    ensures turns { TakesTurns (clients_of R.world R.program kernels.old) (length kernels.old) turns.now (K.written out.old) (K.written out.new) objects.old objects.new result }
    ensures kept { AreKept R.keys R.world R.known R.linked R.program kernels.old kernels.new }
    ensures counts { Counts (K.faults out.old) (K.faults out.new) result }
    ensures calms { StaysCalm (K.calm out.old) (K.calm out.new) (K.faults out.old) (K.faults out.new) result }
{
    match start_and_turn(alloc, kernels, turns.as_slice(), objects, host, out, steps) {
        Ok(ends) => Turned::Finished { ends },
        Err(Untold::SinkFailed) => Turned::SinkFailed,
        Err(Untold::NoMemory) => Turned::NoMemory,
    }
}
