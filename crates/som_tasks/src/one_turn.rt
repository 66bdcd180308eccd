//! One turn of a client: its task goes on by one unit, if it is live.

ghost use Rattle.som_interp_task.specs.declared.advanced.Advanced.{Advanced as Answer};
ghost use Rattle.som_semantics.specs.RunText.{no_trace};
ghost use Rattle.som_tasks.specs.Turning.{CanTurn, Counts, GoesOn, IsKept, IsKeptEnd, StaysCalm, Turns, scene_of};
ghost use Rattle.som_trace.specs.Filters.{shows_of};
ghost use Rattle.std.specs.Prelude.{◌≡◌, ◌<◌, ◌+◌, ◌^◌, true};

use crate::client::Client;
use som_exec::{Advanced, TraceFilter, advance};
use som_host::HostTable;
use som_interp_state::Runtime;
use som_io::Sink;
use som_objects::ObjectStore;
use som_tables::Steps;
use som_trace::Untold;
use std::alloc::Global;
use std::sync::ledger::Ledger;

// Keeps the answer of an advance as the client's end, if its lines were told.
fn keep_end(end: &mut Advanced, answer: Advanced) -> Result<(), Untold>
    ensures { IsKeptEnd answer end.new result }
{
    match answer {
        Advanced::SinkFailed => return Err(Untold::SinkFailed),
        Advanced::NoMemory => return Err(Untold::NoMemory),
        Advanced::Going => *end = Advanced::Going,
        Advanced::Done => *end = Advanced::Done,
        Advanced::SourceFault { fault, at } => *end = Advanced::SourceFault { fault, at },
    }
    Ok(())
}

// A live client goes on by one unit.
fn go_on<R: Runtime, K: Sink, L: Ledger>(
    alloc: Global,
    kernel: &mut R,
    client: &mut Client,
    end: &mut Advanced,
    objects: &mut ObjectStore,
    trace: &TraceFilter,
    host: &HostTable,
    out: &mut K,
    steps: &mut Steps<L>,
) -> Result<(), Untold>
    requires unseen { shows_of trace.now ≡ no_trace }
    requires live { client.old.task.live ≡ true }
    requires able { CanTurn R.linked R.known R.program R.made objects.old kernel.old client.old }
    ensures goes { GoesOn client.old.prefix (K.written out.old) (K.written out.new)
        (scene_of R.linked R.known R.program R.made objects.old kernel.old client.old.task)
        (scene_of R.linked R.known R.program R.made objects.new kernel.new client.new.task)
        client.new.task.live end.new result }
    ensures prefix { client.new.prefix ≡ client.old.prefix }
    ensures kept { IsKept R.keys R.world R.known R.linked R.program kernel.old kernel.new }
    ensures counts { Counts (K.faults out.old) (K.faults out.new) result }
    ensures calms { StaysCalm (K.calm out.old) (K.calm out.new) (K.faults out.old) (K.faults out.new) result }
{
    kernel.know();
    let answer = advance(
        alloc,
        &mut client.task,
        kernel,
        1,
        objects,
        trace,
        host,
        &client.prefix,
        out,
        steps,
    );
    kernel.know();
    keep_end(end, answer)
}

/// One turn: a live client goes on by one unit, and its end is kept; one that has ended rests. Where its lines aren't told
/// whole its task can't be gone on with.
pub(crate) fn take_turn<R: Runtime, K: Sink, L: Ledger>(
    alloc: Global,
    kernel: &mut R,
    client: &mut Client,
    end: &mut Advanced,
    objects: &mut ObjectStore,
    trace: &TraceFilter,
    host: &HostTable,
    out: &mut K,
    steps: &mut Steps<L>,
) -> Result<(), Untold>
    requires unseen { shows_of trace.now ≡ no_trace }
    requires able { CanTurn R.linked R.known R.program R.made objects.old kernel.old client.old }
    ensures turns { Turns R.linked R.known R.program R.made (K.written out.old) (K.written out.new) objects.old objects.new kernel.old kernel.new client.old client.new end.old end.new result }
    ensures kept { IsKept R.keys R.world R.known R.linked R.program kernel.old kernel.new }
    ensures counts { Counts (K.faults out.old) (K.faults out.new) result }
    ensures calms { StaysCalm (K.calm out.old) (K.calm out.new) (K.faults out.old) (K.faults out.new) result }
{
    if client.task.live() {
        go_on(alloc, kernel, client, end, objects, trace, host, out, steps)
    } else {
        Ok(())
    }
}
