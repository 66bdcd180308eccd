//! Turns are given to the clients of linked kernels, and their ends are told.

ghost use Rattle.som_cmd_tasks.specs.Ends.{EndsTurns};
ghost use Rattle.som_cmd_tasks.specs.Given.{GivesTurns};
ghost use Rattle.som_tasks.specs.Taken.{clients_of};
ghost use Rattle.som_turn_laws.specs.Turns.{turns_of};
ghost use Rattle.std.specs.List.{All};
ghost use Rattle.std.specs.Prelude.{◌≡◌, ◌≢◌, ◌<◌, ◌^◌, ℕ, length};

use crate::ends::tell_ends;
use som_host::HostTable;
use som_interp_state::Runtime;
use som_io::Sink;
use som_model::List;
use som_objects::ObjectStore;
use som_tables::Steps;
use som_tasks::{Turned, run_turns};
use std::alloc::Global;
use std::marker::Brand;
use std::sync::ledger::{Blank, Ledger};

// Gives the turns, over a store of objects of their own, and counts the steps of look-ups.
#[tactic(auto, using(crate::proofs::Telling::gives))]
fn give_counted<L: Ledger, R: Runtime + Drop, K: Sink>(
    alloc: Global,
    kernels: &mut List<R>,
    turns: &List<u8>,
    host: &HostTable,
    out: &mut K,
    blank: Blank,
) -> Turned
    requires name { blank.name ≡ L.name }
    requires parts { blank.parts ≡ L.parts }
    requires some { 0 < blank.parts }
    requires places { All (λ turn. turn < length kernels.old) turns.now }
    requires units { (i : ℕ) → turns_of i turns.now < 2 ^ 32 }
    ensures { GivesTurns (clients_of R.world R.program kernels.old) (length kernels.old) turns.now (K.calm out.old) (K.calm out.new) (K.faults out.old) (K.faults out.new) (K.written out.old) (K.written out.new) result }
{
    let mut steps: Steps<L> = Steps::new(blank);
    let mut objects = ObjectStore::new(alloc);
    run_turns(alloc, kernels, turns, &mut objects, host, out, &mut steps)
}

/// Gives the turns to the clients of these kernels, tells the end of each, and answers 0; or 8 where the sink failed, or 10
/// for want of memory.
pub(crate) fn give_turns<R: Runtime + Drop, K: Sink>(
    alloc: Global,
    kernels: &mut List<R>,
    turns: &List<u8>,
    host: &HostTable,
    out: &mut K,
) -> u8
    requires places { All (λ turn. turn < length kernels.old) turns.now }
    requires units { (i : ℕ) → turns_of i turns.now < 2 ^ 32 }
    ensures ends { EndsTurns (clients_of R.world R.program kernels.old) turns.now (length kernels.old) (K.faults out.old) (K.faults out.new) (K.written out.old) (K.written out.new) result }
    ensures calm { K.calm out.old → result ≢ 8 }
{
    match give_counted::<Brand, R, K>(alloc, kernels, turns, host, out, Blank::new(1)) {
        Turned::Finished { ends } => tell_ends(alloc, ends.as_slice(), out),
        Turned::SinkFailed => 8,
        Turned::NoMemory => 10,
    }
}
