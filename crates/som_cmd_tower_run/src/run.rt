//! The command `tower run`: lays out a client of a tower with the levels below it, and interprets main.

ghost use Rattle.som_io.specs.Outside.{Rose};
ghost use Rattle.som_model.specs.Lists.{Mem};
ghost use Rattle.som_cmd_run.specs.RunAnswer.{run_statuses};
ghost use Rattle.som_cmd_steps.specs.Getting.{FailsGetting};
ghost use Rattle.som_cmd_steps.specs.Outcomes.{EndsAsTold, ShowsSome, StoreFails};
ghost use Rattle.som_cmd_steps.specs.Refusing.{TellsRefusal};
ghost use Rattle.som_cmd_steps.specs.Status.{is_calm_status};
ghost use Rattle.som_cmd_tower_run.specs.Refusals.{IsTowerRefusal};
ghost use Rattle.som_cmd_tower_run.specs.TowerRunAnswer.{IsTowerRunAnswer};
ghost use Rattle.std.specs.Prelude.{IsTrue, length, ◌∷◌, ◌≡◌, ◌≢◌, ◌≤◌, ◌⊎◌};

use crate::laying::link_tower;
use som_cmd_main::{Trace, run_main};
use som_cmd_steps::refuse;
use som_host::HostTable;
use som_io::{Sink, Store};
use som_model::Text;
use std::alloc::Global;

/// Runs a client of a tower on the levels below it, whose names come from the lowest up, with so much fuel: prints what it
/// prints, or the line that refuses it, and answers the status.
pub fn run_tower<S: Store, K: Sink>(
    alloc: Global,
    client: &Text,
    below: &[Text],
    fuel: u32,
    store: &mut S,
    out: &mut K,
    host: &HostTable,
) -> u8
    requires some { 1 ≤ length below.now }
    requires few { length below.now ≤ 8 }
    // Without faults and with memory it is the answer: its text, its status, its files.
    ensures answered { result ≢ 6 → result ≢ 8 → result ≢ 10 →
        EndsAsTold (IsTowerRunAnswer client.now below.now fuel) (S.files store.old) result (S.files store.new) (K.written out.old) (K.written out.new) }

    // It ends with one of these statuses.
    ensures statuses { Mem result run_statuses }

    // A refusal is told by its one line alone.
    ensures one_line { (result ≡ 4) ⊎ (result ≡ 5) ⊎ (result ≡ 7) → TellsRefusal (IsTowerRefusal client.now below.now) result (K.written out.old) (K.written out.new) }

    // The store failed in this call, and the line that says so is all that was written.
    ensures store_failed { result ≡ 6 → StoreFails (FailsGetting (S.files store.old) (client.now ∷ below.now)) (S.faults store.old) (S.faults store.new) (K.written out.old) (K.written out.new) }

    // The sink failed in this call.
    ensures sink_failed { result ≡ 8 → Rose (K.faults out.old) (K.faults out.new) }

    // What was written before the sink failed or memory ran out is a front of the text.
    ensures front { (result ≡ 8) ⊎ (result ≡ 10) →
        ShowsSome (IsTowerRunAnswer client.now below.now fuel) (FailsGetting (S.files store.old) (client.now ∷ below.now)) (S.files store.old) (S.faults store.old) (S.faults store.new) (K.written out.old) (K.written out.new) }

    // No words are refused here.
    ensures words { result ≢ 2 }

    // Over a store and a sink of which nothing is set to fail, neither is said to fail.
    ensures calm { S.calm store.old → K.calm out.old → IsTrue (is_calm_status result) }

    // No file is changed.
    ensures files { S.files store.new ≡ S.files store.old }
{
    match link_tower(alloc, client, below, store) {
        Err(stop) => refuse(out, &stop),
        Ok(mut kernel) => run_main(alloc, &mut kernel, fuel, Trace::Nothing, host, out),
    }
}
