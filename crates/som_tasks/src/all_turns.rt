//! The turns of several clients, one after the other.

ghost use Rattle.som_semantics.specs.RunText.{no_trace};
ghost use Rattle.som_io.specs.Outside.{ShowsFront};
ghost use Rattle.som_objects.specs.Objects.{live_at};
ghost use Rattle.som_tasks.specs.Stage.{AreAfter, HaveTurned};
ghost use Rattle.som_tasks.specs.Taken.{AreKept, clients_of};
ghost use Rattle.som_tasks.specs.Turning.{Counts, StaysCalm};
ghost use Rattle.som_trace.specs.Filters.{shows_of};
ghost use Rattle.som_turn_laws.specs.Turns.{turns_of, turns_text};
ghost use Rattle.std.specs.List.{All};
ghost use Rattle.std.specs.Prelude.{◌≡◌, ◌≤◌, ◌<◌, ◌^◌, [], ℕ, OnOk, length};

use crate::client::Client;
use crate::one_turn::take_turn;
use som_exec::{Advanced, TraceFilter};
use som_host::HostTable;
use som_interp_state::Runtime;
use som_io::Sink;
use som_model::List;
use som_objects::ObjectStore;
use som_tables::Steps;
use som_trace::Untold;
use std::alloc::Global;
use std::mem;
use std::sync::ledger::Ledger;

/// Gives the turns in their order, each to the client of that number.
pub(crate) fn take_turns<R: Runtime, K: Sink, L: Ledger>(
    alloc: Global,
    kernels: &mut [R],
    clients: &mut [Client],
    ends: &mut [Advanced],
    turns: &[u8],
    objects: &mut ObjectStore,
    trace: &TraceFilter,
    host: &HostTable,
    out: &mut K,
    steps: &mut Steps<L>,
) -> Result<(), Untold>
    requires unseen { shows_of trace.now ≡ no_trace }
    requires places { All (λ turn. turn < length kernels.old) turns.now }
    requires units { (i : ℕ) → turns_of i turns.now < 2 ^ 32 }
    requires begins { AreAfter R.linked R.known R.program R.made (length objects.old) (clients_of R.world R.program kernels.old) [] objects.old kernels.old clients.old ends.old }
    ensures turned { OnOk result (HaveTurned R.keys R.world R.linked R.known R.program R.made (clients_of R.world R.program kernels.old) turns.now (K.written out.old) (K.written out.new) objects.old objects.new kernels.old kernels.new clients.new ends.new) }
    ensures front { ShowsFront (K.written out.old) (K.written out.new) (turns_text (clients_of R.world R.program kernels.old) turns.now) }
    ensures kept { AreKept R.keys R.world R.known R.linked R.program kernels.old kernels.new }
    ensures older { (n : ℕ) → n ≤ length objects.old → live_at objects.new n ≡ live_at objects.old n }
    ensures counts { Counts (K.faults out.old) (K.faults out.new) result }
    ensures calms { StaysCalm (K.calm out.old) (K.calm out.new) (K.faults out.old) (K.faults out.new) result }
{
    for turn in turns {
        let place = usize::from(*turn);
        take_turn(
            alloc,
            &mut kernels[place],
            &mut clients[place],
            &mut ends[place],
            objects,
            trace,
            host,
            out,
            steps,
        )?;
    }
    Ok(())
}

/// As `take_turns`, over kernels that a list holds, which gets all of them back.
pub(crate) fn turn_listed<R: Runtime + Drop, K: Sink, L: Ledger>(
    alloc: Global,
    kernels: &mut List<R>,
    clients: &mut [Client],
    ends: &mut [Advanced],
    turns: &[u8],
    objects: &mut ObjectStore,
    trace: &TraceFilter,
    host: &HostTable,
    out: &mut K,
    steps: &mut Steps<L>,
) -> Result<(), Untold>
    requires unseen { shows_of trace.now ≡ no_trace }
    requires places { All (λ turn. turn < length kernels.old) turns.now }
    requires units { (i : ℕ) → turns_of i turns.now < 2 ^ 32 }
    requires begins { AreAfter R.linked R.known R.program R.made (length objects.old) (clients_of R.world R.program kernels.old) [] objects.old kernels.old clients.old ends.old }
    ensures turned { OnOk result (HaveTurned R.keys R.world R.linked R.known R.program R.made (clients_of R.world R.program kernels.old) turns.now (K.written out.old) (K.written out.new) objects.old objects.new kernels.old kernels.new clients.new ends.new) }
    ensures front { ShowsFront (K.written out.old) (K.written out.new) (turns_text (clients_of R.world R.program kernels.old) turns.now) }
    ensures kept { AreKept R.keys R.world R.known R.linked R.program kernels.old kernels.new }
    ensures older { (n : ℕ) → n ≤ length objects.old → live_at objects.new n ≡ live_at objects.old n }
    ensures counts { Counts (K.faults out.old) (K.faults out.new) result }
    ensures calms { StaysCalm (K.calm out.old) (K.calm out.new) (K.faults out.old) (K.faults out.new) result }
{
    let mut held = mem::replace(kernels, List::new(alloc)).into_vec();
    let answer = take_turns(
        alloc,
        held.as_mut_slice(),
        clients,
        ends,
        turns,
        objects,
        trace,
        host,
        out,
        steps,
    );
    drop(mem::replace(kernels, List::from_vec(held)));
    answer
}
